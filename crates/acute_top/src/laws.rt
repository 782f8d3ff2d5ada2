// What follows from the contract of the top call.
ghost use Rattle.std.specs.Prelude.{◌≡◌, ◌≤◌, ◌⊎◌, ◌↔◌, ◌&&◌, List, [], ◌++◌, ℕ, length, Bool, false, Option, IsTrue, None, Some, is_some, codes};
ghost use Rattle.ac_types.specs.Limits.{most_shelf_entries};
ghost use Rattle.ac_types.specs.Types.{Bytes, Typ};
ghost use Rattle.ac_terms.specs.Terms.{Expr, PValue};
ghost use Rattle.ac_terms.specs.Defs.{Environment, Packet};
ghost use Rattle.ac_terms.specs.Bounds.{Spells};
ghost use Rattle.ac_rules.specs.Packets.{PacketCause, Accepts, RefusesPacket};
ghost use Rattle.ac_meaning.specs.Packing.{Lands, Sinks, landing, of_cause, unmarshal_failure_exn};
ghost use Rattle.ac_outside.specs.Outside.{Rose};
ghost use Rattle.ac_rules.specs.Views.{Mode, Coloured};
ghost use Rattle.acute_words.specs.Commands.{ChannelName, ProgramFiles, Request, run, check, chain, pipe};
ghost use Rattle.ac_load_rules.specs.Accepting.{Shelved, IsShelf};
ghost use Rattle.ac_load.specs.Loading.{Loads};
ghost use Rattle.acute_files.specs.Files.{Reading, IsTextOf};
ghost use Rattle.acute_files.specs.ManyTexts.{TextsFail};
ghost use Rattle.acute_files.specs.ProgramTexts.{IsShelfBy, HasBadLine, ReadsFail};
ghost use Rattle.acute_answers.specs.declared.status.Status.{Status};
ghost use Rattle.ac_chain.specs.ChainTexts.{texts_of};
ghost use Rattle.ac_chain.specs.ChainMeaning.{Runs, console_of};
ghost use Rattle.ac_chain.specs.Endings.{NoneIsForeign, Provenance};
ghost use Rattle.acute_chain.specs.Chaining.{lines_behind};
ghost use Rattle.acute_answers.specs.declared.status.TheConstants.Status.{FINISHED, REFUSED, OUT_OF_MEMORY, SHELF_REFUSED};
ghost use Rattle.acute_answers.specs.Answers.{ShownAnswer};
ghost use Rattle.acute_answers.specs.Meaning.{CommandAnswer, Means};
ghost use Rattle.ac_meaning.specs.Writes.{Console, written};
ghost use Rattle.acute_pipe.specs.Spawnings.{ChildFailed, Spawning, StartFailed};
ghost use Rattle.acute_top.specs.Streams.{AllWritten};
ghost use Rattle.acute_top.specs.Handed.{Handed, is_told, input_of, InputFailed, OutputFailed, MakingFailed};
ghost use Rattle.acute_top.specs.Requests.{list_named, IsUnreadable};
ghost use Rattle.acute_top.specs.Giving.{Gives};
ghost use Rattle.acute_top.specs.ChainEndings.{ChainsFiles};
ghost use Rattle.acute_top.specs.Endings.{AnswerEnded, CallEnded};

/// Beside a shelf, within a budget, with an input, and with or without a channel to send to, a text
/// has one meaning, which is the same in both modes: it is refused or not, and ends in one way, with
/// the same writes.
pub fn one_meaning()
    ensures { (m n : Mode) (text : List ℕ) (shelf : List Shelved) (steps : ℕ) (input : Bytes)
        (sends : Bool) (a b : CommandAnswer) → IsShelf shelf →
        length shelf ≤ most_shelf_entries → Means m text shelf steps input sends a →
        Means n text shelf steps input sends b → (a.status ≡ b.status) × (a.writes ≡ b.writes) }
{}

/// What stands beside a program, without a list or by a list that has no bad line, is a shelf of at
/// most `MOST_SHELF_ENTRIES` texts.
pub fn good_shelf()
    ensures { (files : Bytes → Reading) (list : Option Bytes) (shelf : List Shelved) →
        IsShelfBy files list shelf → IsShelf shelf × (length shelf ≤ most_shelf_entries) }
{}

/// Beside a shelf, a text that loads has a meaning in each mode, within each budget and with each
/// input: its program ends with a value, with an exception, or in front of an application too many,
/// and never gets stuck.
pub fn some_meaning()
    ensures { (mode : Mode) (text : List ℕ) (shelf : List Shelved) (steps : ℕ) (input : Bytes)
        (sends : Bool) (E : Environment) (e : Expr) (T : Typ) → IsShelf shelf →
        length shelf ≤ most_shelf_entries → Loads text shelf E e T →
        (a : CommandAnswer) × Means mode text shelf steps input sends a }
{}

/// `unmarshal` takes exactly the strings that spell a packet which is accepted at the type, with
/// the definitions and the value of that. Where the packet is refused, the exception is that of
/// its first cause; where a string spells none, it is `Unmarshal_failure "format"`.
pub fn taken_exactly()
    ensures taken { (E : Environment) (T : Typ) (s : Bytes) (F : Environment) (v : PValue) →
        landing E T s ≡ Lands F v ↔ ((p : Packet) × Spells s p × Accepts E p T F v) }
    ensures refused { (E : Environment) (T : Typ) (s : Bytes) (p : Packet) (c : PacketCause) →
        Spells s p → RefusesPacket E p T c → landing E T s ≡ Sinks (of_cause p.defs c) }
    ensures format { (E : Environment) (T : Typ) (s : Bytes) →
        ((p : Packet) → Spells s p → ⊥) →
        landing E T s ≡ Sinks (unmarshal_failure_exn (codes "format")) }
{}

/// Where the files are told and no count rose, a run's status is that of the text's meaning beside
/// its shelf, or that of want of memory. With an input all has to be told of what the run reads from
/// and writes to.
pub fn nothing_failed()
    ensures { (p : ProgramFiles) (steps : ℕ) (from to : Option ChannelName) (o : Handed)
        (c : Spawning) (status : Status) → CallEnded (Some (run p steps from to)) o c status →
        ((name : Bytes) → IsTrue (o.files name).told) →
        (from ≡ None) ⊎ IsTrue (is_told from to o) →
        (ReadsFail o.files p.file p.shelf → ⊥) → (InputFailed from o → ⊥) →
        (OutputFailed to o → ⊥) → (MakingFailed to o → ⊥) →
        (Rose o.errors.before o.errors.after → ⊥) → (status ≡ OUT_OF_MEMORY → ⊥) →
        (shelf : List Shelved) (text : Bytes) → IsShelfBy o.files p.shelf shelf →
        IsTextOf (o.files p.file) text → (mode : Mode) (a : CommandAnswer) →
        Means mode text shelf steps (input_of from o) (is_some to) a → status ≡ a.status }
{}

/// Where files, child and output are told and no count rose, a pipe ends with the status that its
/// receiver's text means with what the child gives, and has printed just that.
pub fn nothing_failed_piping()
    ensures { (tool sender : Bytes) (p : ProgramFiles) (steps : ℕ) (n : Option Bytes)
        (o : Handed) (c : Spawning) (status : Status) →
        CallEnded (Some (pipe tool sender p steps n)) o c status →
        ((name : Bytes) → IsTrue (o.files name).told) → IsTrue (c.told && o.output.told) →
        (ReadsFail o.files p.file p.shelf → ⊥) → (StartFailed c → ⊥) → (ChildFailed c → ⊥) →
        (Rose o.output.before o.output.after → ⊥) → (Rose o.errors.before o.errors.after → ⊥) →
        (status ≡ OUT_OF_MEMORY → ⊥) → (shelf : List Shelved) (text : Bytes) →
        IsShelfBy o.files p.shelf shelf → IsTextOf (o.files p.file) text →
        (mode : Mode) (a : CommandAnswer) → Means mode text shelf steps c.old.left false a →
        (status ≡ a.status) × (o.output.new ≡ o.output.old ++ written Console a.writes) }
{}

/// In the same way a request that prints what it finds ends with an answer that it gives, and has
/// printed that and written its line; and so does a chain.
pub fn nothing_failed_printing()
    ensures found { (r : Request) (o : Handed) (status : Status) →
        AnswerEnded r o.files o.output o.errors status →
        ((n : ℕ) → HasBadLine o.files (list_named r) n → ⊥) → (IsUnreadable o.files r → ⊥) →
        (Rose o.output.before o.output.after → ⊥) → (Rose o.errors.before o.errors.after → ⊥) →
        (status ≡ OUT_OF_MEMORY → ⊥) → (a : ShownAnswer) × (Gives o.files r a ×
        ((status ≡ a.status) × (AllWritten o.output a.printed × AllWritten o.errors a.line))) }
    ensures chained { (programs : List Bytes) (list : Option Bytes) (steps : ℕ) (o : Handed)
        (c : Spawning) (status : Status) →
        CallEnded (Some (chain programs list steps)) o c status →
        ((n : ℕ) → HasBadLine o.files list n → ⊥) → (TextsFail o.files programs list → ⊥) →
        (Rose o.output.before o.output.after → ⊥) → (Rose o.errors.before o.errors.after → ⊥) →
        (status ≡ OUT_OF_MEMORY → ⊥) → (a : ShownAnswer) ×
        (ChainsFiles o.files programs list steps o.output.told a ×
        ((status ≡ a.status) × (AllWritten o.output a.printed × AllWritten o.errors a.line))) }
{}

/// Where the files are told, a request gives one status, and one print: only the lines of `check`
/// may have other places in `syntax`. A chain gives one status, one print where output tells what
/// it has, and one line where none of its texts is refused.
pub fn one_answer()
    ensures found { (r : Request) (files : Bytes → Reading) →
        ((name : Bytes) → IsTrue (files name).told) → (a b : ShownAnswer) →
        Gives files r a → Gives files r b → (a.status ≡ b.status) ×
        (((checked : List Bytes) (list : Option Bytes) → r ≡ check checked list → ⊥) →
        a.printed ≡ b.printed) }
    ensures chained { (programs : List Bytes) (list : Option Bytes) (steps : ℕ) (told : Bool)
        (files : Bytes → Reading) → ((name : Bytes) → IsTrue (files name).told) →
        (a b : ShownAnswer) → ChainsFiles files programs list steps told a →
        ChainsFiles files programs list steps told b → (a.status ≡ b.status) ×
        ((IsTrue told → a.printed ≡ b.printed) × ((a.status ≡ REFUSED → ⊥) → a.line ≡ b.line)) }
{}

/// Where the list of a shelf has a bad line, each request that names it ends so.
pub fn bad_line_refused()
    ensures { (r : Request) (o : Handed) (c : Spawning) (status : Status) →
        CallEnded (Some r) o c status →
        ((name : Bytes) → IsTrue (o.files name).told) → (IsUnreadable o.files r → ⊥) →
        (Rose o.errors.before o.errors.after → ⊥) → (status ≡ OUT_OF_MEMORY → ⊥) →
        (n : ℕ) → HasBadLine o.files (list_named r) n → status ≡ SHELF_REFUSED }
{}

/// Where a chain has run and all its lines say `native`, each value of an abstract type that a
/// string brought was handed out by its module before: in runs of the chain's programs that have
/// these ends, what stands inside each seal that unmarshal writes, at a type without functions, was
/// sealed before by code of a definition of that name.
pub fn native_provenance()
    ensures { (programs : List Bytes) (list : Option Bytes) (steps : ℕ) (files : Bytes → Reading)
        (told : Bool) (a : ShownAnswer) → (c : ChainsFiles files programs list steps told a) →
        a.status ≡ FINISHED → (r : Runs Coloured (texts_of c.texts) c.shelf steps told) ×
        (a.printed ≡ console_of r.ends ++ lines_behind 1 [] r.ends) ×
        (NoneIsForeign [] r.ends → Provenance steps told r.programs r.ends) }
{}

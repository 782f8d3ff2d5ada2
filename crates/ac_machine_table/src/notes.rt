// What is noted of a pause.

use ac_machine_engine::Pause;
use ac_text::Page;
use ac_values::Store;
use ac_values::read::int_in;

// Notes a word and a text.
fn note(notes: &mut Page, word: &[u8], text: &[u8]) {
    notes.put(word);
    notes.put(text);
}

/// Notes a pause: what is printed as it is.
pub fn note_pause(notes: &mut Page, store: &Store, pause: &Pause) {
    match pause {
        Pause::Print(text) => notes.put(text.as_slice()),
        Pause::Send(text) => note(notes, b" send ", text.as_slice()),
        Pause::Receive => notes.put(b" receive"),
        Pause::Marshal { mark, value, .. } => {
            note(notes, b" marshal ", mark.as_slice());
            notes.put(b" ");
            notes.integer(int_in(store, *value).unwrap_or(0));
        }
        Pause::Unmarshal { text, .. } => note(notes, b" unmarshal ", text.as_slice()),
        Pause::Done => notes.put(b" done"),
        Pause::Raised(exn) => note(notes, b" raised ", exn.kind().name()),
        Pause::Spent => notes.put(b" spent"),
        Pause::Memory => notes.put(b" memory"),
    }
}

// Definitions that nest at the limit of marshal and past it, for which the tables have too little
// stack as Rattle's own compiler builds them, and strings for which there is just room or none; in
// programs that print what they meet.

use crate::make::{finish, text};
use ac_outside::{SureSink, SureSource};
use ac_types::Text;
use std::alloc::Global;
use std::process::Abort;
use std::thread::Threads;

// Prints how long the strings of functions are that call a module, or why there is none; with text
// beside the function, so much that the string is as long as may be, and one byte longer.
const NESTED: &[u8] = br#"let show : (unit -> string) -> unit = fun (f : unit -> string) ->
  IO.print_string ((try Str.of_int (Str.length (f ())) with Marshal_failure (s : string) -> s end)
    ^ "\n") in
let rec double (n : int) : string =
  if n = 0 then "x" else let s : string = double (n - 1) in s ^ s in
let long : string = double 20 in
let front : int -> string = fun (n : int) -> Str.sub (long, 0, n) in
show (fun (u : unit) -> marshal "MK" (fun (u : unit) -> N.f) : unit -> unit -> int);
show (fun (u : unit) -> marshal "MK" (fun (u : unit) -> O.f) : unit -> unit -> int);
show (fun (u : unit) ->
  marshal "MK" (front 1044526, fun (u : unit) -> N.f) : string * (unit -> unit -> int));
show (fun (u : unit) ->
  marshal "MK" (front 1044527, fun (u : unit) -> N.f) : string * (unit -> unit -> int));
show (fun (u : unit) ->
  marshal "MK" (front 1044527, fun (u : unit) -> O.f) : string * (unit -> unit -> int));
let s : string = marshal "MK" (fun (u : unit) -> N.f) : unit -> unit -> int in
IO.print_int ((unmarshal s as unit -> unit -> int) () ())
"#;

const OF_NESTED: &[u8] = b"4040\ndepth\n1048576\nsize\ndepth\n0";

// What is read with 65,534 modules beside the program's own one, and then with one more.
const ROOM: &[u8] = br#"module A : sig end = struct end
let letters : string = "ABCDEFGHIJKLMNOPQRSTUVWXYZabcdefghijklmnopqrstuvwxyz0123456789_'" in
let letter : int -> string = fun (i : int) -> Str.sub (letters, i mod 64, 1) in
let rec modules (p : int * int) : string =
  match p with ((i : int), (n : int)) ->
    if n = 1
    then "\x01\x03" ^ letter (i / 4096) ^ letter (i / 64) ^ letter i
      ^ "\x01\x02\x00\x00\x00\x00\x00\x00\x00\x00"
    else modules (i, n / 2) ^ modules (i + n / 2, n - n / 2) end in
let all : string = modules (0, 65535) in
let read : string * string -> unit = fun (p : string * string) ->
  match p with ((count : string), (defs : string)) ->
    IO.print_string ((try
      (let u : unit = unmarshal ("ACUP\x01" ^ count ^ defs ^ "\x04\x04") as unit in "accepted")
      with Unmarshal_failure (s : string) -> s end) ^ "\n") end in
read ("\xff\xfe", Str.sub (all, 0, 983010));
read ("\x00\x01", Str.sub (all, 983010, 15))
"#;

// The module of this name, whose field nests 499 deeper than the leaf in it.
fn put_nested(rt: &impl Abort, text: &mut Text, name: &[u8], leaf: &[u8]) {
    put(rt, text, b"module ");
    put(rt, text, name);
    let head = b" : sig val f : unit -> int end = struct val f : unit -> int = fun (u : unit) -> ";
    put(rt, text, head);
    for _ in 0..249 {
        put(rt, text, b"let rec g (x : int) : int = ");
    }
    put(rt, text, leaf);
    for _ in 0..249 {
        put(rt, text, b" in 0");
    }
    put(rt, text, b" end\n");
}

fn put(rt: &impl Abort, text: &mut Text, bytes: &[u8]) {
    text.extend(bytes).expect(rt, "memory");
}

fn nested(rt: &impl Abort, alloc: Global) -> Text {
    let mut nested = text(rt, alloc, b"mark \"MK\"\n");
    put_nested(rt, &mut nested, b"N", b"0");
    put_nested(rt, &mut nested, b"O", b"0 + 0");
    put(rt, &mut nested, NESTED);
    nested
}

// Checks that a program ends well and prints this.
fn check_prints<R: Abort + Threads + Sync>(rt: &R, alloc: Global, program: &[u8], printed: &[u8]) {
    let mut input = SureSource::new(Text::new(alloc));
    let mut output = SureSink::new(alloc);
    let mut errors = SureSink::new(alloc);
    finish(
        rt,
        alloc,
        "run a",
        program,
        &mut input,
        &mut output,
        &mut errors,
    );
    assert!(rt; output.bytes().as_slice() == printed);
}

#[test]
fn definitions_that_nest(rt: HostRuntime) {
    let text = nested(&rt, rt.alloc());
    check_prints(&rt, rt.alloc(), text.as_slice(), OF_NESTED);
}

#[test]
fn room_for_one_less(rt: HostRuntime) {
    check_prints(&rt, rt.alloc(), ROOM, b"accepted\nfull\n");
}

// Words, lists and messages, each once.
use crate::arguments::{Fault, read, wants_help};
use crate::asked::{Asked, what_is_asked, without_dot};
use crate::list_file::{BadLine, LineFault, paths_in};
use crate::program::Program;
use crate::trouble::{Trouble, What};
use cutting::Refusal;
use std::test::Fail;

#[test]
fn options_stand_anywhere(rt: HostRuntime) -> Result<(), Fail> {
    let words = ["0", "--store", "x", "--progress", "--", "--help"];
    let given = read(rt.alloc(), true, &words).map_err(|e| e.fault)?;
    assert_eq!(rt; given.folder, Some("x"));
    assert!(rt; given.progress);
    assert_eq!(rt; given.arguments.as_slice(), ["0", "--help"].as_slice());
    Ok(())
}

#[test]
fn an_unknown_option(rt: HostRuntime) -> Result<(), Fail> {
    let wrong = read(rt.alloc(), false, &["--progress"])
        .err()
        .ok_or("taken")?;
    assert_eq!(rt; wrong.fault, Fault::NoOption);
    Ok(())
}

#[test]
fn help_stands_before_two_dashes(rt: HostRuntime) -> Result<(), Fail> {
    let heap = rt.alloc();
    let help = b"--help".to_vec(heap)?;
    let end = b"--".to_vec(heap)?;
    let words = [end, help];
    assert!(rt; !wants_help(&words));
    Ok(())
}

#[test]
fn a_list(rt: HostRuntime) -> Result<(), Fail> {
    let paths = paths_in(rt.alloc(), b"./a b\nc").map_err(|e| e.fault)?;
    assert_eq!(rt; paths.as_slice(), ["a b", "c"].as_slice());
    let bad = paths_in(rt.alloc(), b"./a\na\n").err().ok_or("taken")?;
    let line = 2;
    let fault = LineFault::NotAbove;
    assert_eq!(rt; bad, BadLine { line, fault });
    Ok(())
}

#[test]
fn machines_of_a_range(rt: HostRuntime) -> Result<(), Fail> {
    let asked = what_is_asked(rt.alloc(), Program::Init, &["7", "0-2"]).map_err(|e| e.fault)?;
    match asked {
        Asked::Init(machines) => assert_eq!(rt; machines.as_slice(), [7, 0, 1, 2].as_slice()),
        _ => assert!(rt; false),
    }
    assert_eq!(rt; without_dot("./a"), "a");
    Ok(())
}

#[test]
fn a_message(rt: HostRuntime) -> Result<(), Fail> {
    let path = String::from_str(rt.alloc(), "é\n")?;
    let told = Trouble::refused(Program::Day, Refusal::FileTooLong, What::File(path));
    let text = told.to_string(rt.alloc())?;
    assert_eq!(rt;
        text.as_str(),
        "refused by 1: \\xc3\\xa9\\x0a: a file has at most 16777216 bytes; take it off the list, or split it"
    );
    Ok(())
}

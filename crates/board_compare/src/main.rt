// Prints two images side by side. Its two arguments name the files, each an image.
#![tactic(auto)]

use compare_listing::compare_listing;
use input::{INPUT_ROOM, print_text, read_full};
use std::env::{Env, FillError};
use std::fs::Files;
use std::{fs, io, str};

// The program's own name and two files.
const ARGUMENTS: usize = 3;

// The bytes of memory for a file's name.
const NAME_ROOM: usize = 4096;

// Room for the text of any two images.
const TEXT_ROOM: usize = 16384;

// Whether there is an argument at this place.
fn is_given(rt: &impl Env, argument: usize) -> bool {
    let mut none = [];
    !matches!(rt.arg(argument, &mut none), Err(FillError::NotPresent))
}

// Opens the file that an argument names; or tells why it can't be opened, and answers nothing.
fn open<R: Env + Files + Eprint>(rt: &R, argument: usize) -> io::Result<Option<R::File>> {
    let mut path = [0u8; NAME_ROOM];
    let Ok(length) = rt.arg(argument, &mut path) else {
        eprintln!(rt; "file name: File name too long")?;
        return Ok(None);
    };
    let Ok(name) = str::from_utf8(&path[..length]) else {
        let shown = path[..length].escape_ascii();
        eprintln!(rt; "{shown}: not UTF-8")?;
        return Ok(None);
    };
    match fs::open(rt, name) {
        Ok(file) => Ok(Some(file)),
        Err(error) => {
            eprintln!(rt; "{name}: {error}")?;
            Ok(None)
        }
    }
}

// Reads the second image, and prints the text of both.
fn print_with(rt: &(impl Env + Files + Print + Eprint), a: &[u8]) -> io::Result<()> {
    let Some(mut file) = open(rt, 2)? else {
        return Ok(());
    };
    let mut b = [0u8; INPUT_ROOM];
    let got = read_full(&mut file, &mut b)?;
    let mut out = [0u8; TEXT_ROOM];
    let end = compare_listing(&mut out, a, &b[..got]);
    print_text(rt, &out, end)
}

// Reads the first image, and goes on with the second.
fn main(rt: HostRuntime) -> io::Result<()> {
    if !is_given(&rt, ARGUMENTS - 1) || is_given(&rt, ARGUMENTS) {
        eprintln!(rt; "usage: board_compare IMAGE IMAGE")?;
        return Ok(());
    }
    let Some(mut file) = open(&rt, 1)? else {
        return Ok(());
    };
    let mut a = [0u8; INPUT_ROOM];
    let got = read_full(&mut file, &mut a)?;
    print_with(&rt, &a[..got])
}

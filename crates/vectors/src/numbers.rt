// Numbers, written and read.
use std::io;
use std::io::Write;
use telling::{say, say_bytes};
use texts::{part, parts, say_filled};
use wire::numbers::{Cursor, group_count, put_number, read_number};
use wire::refusals::Fault;

// Writes how a number is written.
fn write_case(to: &mut impl Write, x: u32) -> io::Result<()> {
    say_filled(to, b"write #:", &[x as u64])?;
    if group_count(x) <= 5 {
        let mut out = [0u8; 5];
        let n = put_number(&mut out, x);
        say_bytes(to, &out, n)?;
    }
    say(to, b"\n")
}

// Writes what was found where bytes are read as a number.
fn say_found(to: &mut impl Write, found: Result<(u32, Cursor), Fault>) -> io::Result<()> {
    match found {
        Ok((value, next)) => {
            say_filled(to, b": value # next #\n", &[value as u64, next.at as u64])?;
        }
        Err(fault) => {
            say_filled(
                to,
                b": refused # place #\n",
                &[u32::from(fault.refusal) as u64, fault.place as u64],
            )?;
        }
    }
    Ok(())
}

// Writes what is found where bytes are read as a number.
fn read_case(to: &mut impl Write, bytes: &[u8]) -> io::Result<()> {
    say(to, b"read")?;
    say_bytes(to, bytes, bytes.len())?;
    say_found(to, read_number(bytes, Cursor { at: 0 }))
}

// The numbers of "Checked by hand", and the greatest one written.
fn write_cases(to: &mut impl Write) -> io::Result<()> {
    say(to, b"numbers\n")?;
    for x in &[127, 128, 4294967295] {
        write_case(to, *x)?;
    }
    Ok(())
}

// The bytes of each part of a text.
fn read_cases(to: &mut impl Write, text: &[u8]) -> io::Result<()> {
    for k in 0..parts(text) {
        read_case(to, part(text, k))?;
    }
    Ok(())
}

// All numbers. Those that are read, in order: 127; 128; not in the fewest bytes; the greatest; too great.
pub fn number_cases(to: &mut impl Write) -> io::Result<()> {
    write_cases(to)?;
    read_cases(
        to,
        b"\x7f|\x80\x01|\x80\x00|\xff\xff\xff\xff\x0f|\xff\xff\xff\xff\x10|",
    )
}

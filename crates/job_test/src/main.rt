// Prints, for each job file that is named in the arguments, its name and the text of its job.
#![tactic(auto)]

use std::fs::File;
use std::os::fd::AsRawFd;
use std::rt::Files;

// Prints an open file's name and the text of its job.
fn print_file(name: &str, file: &File) {
    io::write_all(1, name.as_bytes());
    io::write_all(1, b":\n");
    job_io::answer_file(file.as_raw_fd());
}

// The system's text in that of an error, which adds the error's number.
fn system_text(error: &str) -> &str {
    match error.split_once(" (os error ") {
        Some((text, _)) => text,
        None => error,
    }
}

// Writes a line to standard error: the name of a file that can't be opened, a colon and the system's text for the error.
fn fail(rt: &impl Alloc, name: &str, error: std::io::Error) -> std::io::Result<()> {
    let text = error.to_string(rt.alloc())?;
    io::write_all(2, name.as_bytes());
    io::write_all(2, b": ");
    io::write_all(2, system_text(text.as_str()).as_bytes());
    io::write_all(2, b"\n");
    Ok(())
}

// Prints the file that an argument names.
fn print_argument(rt: &(impl Files<File = File> + Alloc), name: &str) -> std::io::Result<()> {
    match File::open(rt, name) {
        Ok(file) => print_file(name, &file),
        Err(error) => fail(rt, name, error)?,
    }
    Ok(())
}

fn main(rt: HostRuntime) -> std::io::Result<()> {
    for name in std::env::args(&rt)?.skip(1) {
        print_argument(&rt, name.as_str())?;
    }
    Ok(())
}

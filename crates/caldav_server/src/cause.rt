//! The cause of a server's status, where its line leaves several.

use cal_base::{FileFault, Files, StdFiles, Word};
use cal_script::ScriptEnd;
use std::fs::{File, OpenOptions};
use std::io::Read;
use std::net::TcpListener;
use std::{fs, io};

/// How many octets of a users file are read.
const USERS_LIMIT: u64 = 65_536;

/// Prints which cause of its status the end of a server had, where a second look at the files and the
/// address of the words shows one.
pub(crate) fn print_cause(rt: &HostRuntime, words: &[Word], end: ScriptEnd) -> io::Result<()> {
    match end.status {
        3 => print_bad_line(rt, value_of(words, "--users"), end.place),
        4 => print_input_fault(rt, words),
        8 => print_journal_fault(rt, value_of(words, "--journal")),
        9 => print_refusal(rt, words, end.place),
        _ => Ok(()),
    }
}

/// The first value that words give an option, as `--users FILE` or `--users=FILE`, or the empty text.
fn value_of<'a>(words: &'a [Word], option: &str) -> &'a str {
    let mut is_next = false;
    'words: for word in words {
        if is_next {
            return word.as_str();
        }
        if let Some(behind) = word.as_str().strip_prefix(option) {
            if let Some(value) = behind.strip_prefix("=") {
                return value;
            }
            is_next = behind.is_empty();
        }
    }
    ""
}

/// Prints the number of the line of the users file that begins at a place, or that the file is too long.
fn print_bad_line(rt: &HostRuntime, path: &str, place: u64) -> io::Result<()> {
    if !is_file(rt, path) {
        return Ok(());
    }
    match StdFiles::new(rt).read(rt.alloc(), path, USERS_LIMIT) {
        Ok(octets) => {
            let line = line_at(octets.as_slice(), place);
            eprintln!(rt; "{path}: line {line}")
        }
        Err(FileFault::TooLong) => eprintln!(rt; "{path}: more than {USERS_LIMIT} octets"),
        Err(_) => Ok(()),
    }
}

/// Whether a file lies at a path, and no folder, pipe or device.
fn is_file(rt: &HostRuntime, path: &str) -> bool {
    match fs::metadata(rt, path) {
        Ok(found) => found.is_file(),
        Err(_) => false,
    }
}

/// The number of the line that begins at a place, counted from 1.
fn line_at(octets: &[u8], place: u64) -> u64 {
    let mut line: u64 = 1;
    let mut left = place;
    'octets: for octet in octets {
        if left == 0 {
            return line;
        }
        left -= 1;
        if *octet == b'\n' {
            line = line.saturating_add(1);
        }
    }
    line
}

/// Prints why the users file cannot be read, or else why the address is not listened at.
fn print_input_fault(rt: &HostRuntime, words: &[Word]) -> io::Result<()> {
    let path = value_of(words, "--users");
    if let Err(error) = look_at_file(rt, path) {
        return eprintln!(rt; "{path}: {error}");
    }
    let address = value_of(words, "--listen");
    match look_at_address(rt, address) {
        Ok(()) => Ok(()),
        Err(error) => eprintln!(rt; "{address}: {error}"),
    }
}

/// Opens a file for reading, where a path is given. What is neither a file nor a folder is left alone,
/// since to open a pipe may wait.
fn look_at_file(rt: &HostRuntime, path: &str) -> io::Result<()> {
    if path.is_empty() {
        return Ok(());
    }
    let found = fs::metadata(rt, path)?;
    if found.is_dir() {
        return Err(io::ErrorKind::IsADirectory.into());
    }
    if found.is_file() {
        let _file = File::open(rt, path)?;
    }
    Ok(())
}

/// Listens at an address for a moment, where one is given.
fn look_at_address(rt: &HostRuntime, address: &str) -> io::Result<()> {
    if !address.is_empty() {
        let _listener = TcpListener::bind(rt, address)?;
    }
    Ok(())
}

/// Prints why the folder of a journal file or the file cannot be used.
fn print_journal_fault(rt: &HostRuntime, path: &str) -> io::Result<()> {
    let folder = folder_of(path);
    if let Err(error) = look_at_folder(rt, folder) {
        return eprintln!(rt; "{folder}: {error}");
    }
    match look_at_journal(rt, path) {
        Ok(()) => Ok(()),
        Err(error) if error.kind() == io::ErrorKind::NotFound => {
            eprintln!(rt; "{path}: cannot be made")
        }
        Err(error) if error.kind() == io::ErrorKind::WouldBlock => {
            eprintln!(rt; "{path}: another program has locked it")
        }
        Err(error) if error.kind() == io::ErrorKind::Unsupported => {
            eprintln!(rt; "{path}: is no file")
        }
        Err(error) => eprintln!(rt; "{path}: {error}"),
    }
}

/// The path of the folder that a path's file is in.
fn folder_of(path: &str) -> &str {
    match path.rsplit_once("/") {
        None => ".",
        Some(("", _)) => "/",
        Some((folder, _)) => folder,
    }
}

/// Opens a folder.
fn look_at_folder(rt: &HostRuntime, path: &str) -> io::Result<()> {
    if !fs::metadata(rt, path)?.is_dir() {
        return Err(io::ErrorKind::NotADirectory.into());
    }
    let _folder = File::open(rt, path)?;
    Ok(())
}

/// Opens a journal file and takes its lock for a moment, as a server does.
fn look_at_journal(rt: &HostRuntime, path: &str) -> io::Result<()> {
    let found = fs::metadata(rt, path)?;
    if found.is_dir() {
        return Err(io::ErrorKind::IsADirectory.into());
    }
    if !found.is_file() {
        return Err(io::ErrorKind::Unsupported.into());
    }
    let file = OpenOptions::new().read(true).write(true).open(rt, path)?;
    file.try_lock()?;
    Ok(())
}

/// Prints what a journal file is refused for.
fn print_refusal(rt: &HostRuntime, words: &[Word], place: u64) -> io::Result<()> {
    let path = value_of(words, "--journal");
    if place == 0 {
        return print_no_journal(rt, path);
    }
    match header_end(rt, path) {
        Ok(end) if place < end => {
            let users = value_of(words, "--users");
            eprintln!(rt; "{path}: its users and groups are not those of {users}")
        }
        Ok(_) => eprintln!(rt; "{path}: damaged or cut at a record, or of another program"),
        Err(_) => Ok(()),
    }
}

/// Prints why a file is no journal.
fn print_no_journal(rt: &HostRuntime, path: &str) -> io::Result<()> {
    match look_at_file(rt, path) {
        Ok(()) => eprintln!(rt; "{path}: no journal"),
        Err(error) => eprintln!(rt; "{path}: {error}"),
    }
}

/// The place behind the header of a journal file.
fn header_end(rt: &HostRuntime, path: &str) -> io::Result<u64> {
    let mut head = [0; 20];
    let mut file = File::open(rt, path)?;
    file.read_exact(&mut head)?;
    let length = u32::from_be_bytes([head[16], head[17], head[18], head[19]]);
    Ok(20 + u64::from(length))
}

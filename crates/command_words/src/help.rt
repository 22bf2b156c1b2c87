//! The help that the library has no command for.

/// The help of the program.
pub const HELP: &str = "A calendar server (CalDAV), whose answers are proved

Usage: caldav_server COMMAND OPTIONS

Commands:
  serve    serves calendars to calendar programs
  load     runs sessions and workers over memory, and prints what they did
  script   reads a script of requests from standard input and prints the replies
  expand   lists the instances of a calendar file in a range of time
  check    tells whether the server would take a calendar file
  slot     prints the times at which some calendars are all free
  migrate  writes a journal anew for other users

Options:
  --help     prints help, also behind the name of a command
  --version  prints the version
";

/// The help of the command `script`.
pub const SCRIPT_HELP: &str =
    "Reads a script of requests from standard input, and prints the replies

Usage: caldav_server script --users <FILE> [--journal <FILE>]

Options:
      --users <FILE>    Who may come in: a line `user NAME SHA256` for each, the SHA-256 of the password in hexadecimal digits
      --journal <FILE>  Where each change is kept before it is answered; it is made where there is none
  -h, --help            Print help
  -V, --version         Print version
";

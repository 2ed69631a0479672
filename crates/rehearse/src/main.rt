// Plays a script of steps, read from standard input, on a harbour and its boats, and prints what happens.
#![tactic(auto)]

mod answers;
mod player;
mod stage;
mod table;

use script::lines::next_line;
use stage::Stage;
use std::io::BufReader;
use std::process::ExitCode;
use std::{env, io};

// What the program is asked for by its arguments: one of three, none of them a failure of another.
enum Asked {
    Run,
    Help,
    Unknown,
}

// The commands, for `--help`.
const HELP: &str = "\
commands, one a line (# begins a comment):
  boats N      N boats, 1 to 8: the first command
  renew I V    boat I gets program V, 1 to 3, at least as new as its own
  back I V     boat I gets the older program V back
  promise I    boat I promises the program that it runs, and tells the harbour
  tick I       boat I tells its promise again, if that is not answered yet
  level K      the harbour says level K
  cut I        boat I loses its power and comes up again
  say I J SHIP LOCK BEFORE [BEHIND [NAME]]
               boat I says a word about a ship to boat J
  show I       what boat I shows of the words that it has taken
  lose         the next message that is sent is lost
  late         the next message that is sent is held back
  come M       message M, as w3 or n5, comes: late, or once more
  raise K      the whole fleet is brought to level K
  seed S N     N commands drawn from seed S
  read         the table of the boats
";

// Reads the arguments: none, or `--help`.
fn arguments(rt: &HostRuntime) -> Asked {
    let Ok(mut args) = env::args(rt) else {
        return Asked::Unknown;
    };
    let _ = args.next();
    let Some(word) = args.next() else {
        return Asked::Run;
    };
    if word.as_str() == "--help" && args.next().is_none() {
        Asked::Help
    } else {
        Asked::Unknown
    }
}

// Plays the script to its end.
fn run(rt: &HostRuntime) -> io::Result<()> {
    let heap = rt.alloc();
    let mut input = BufReader::new(heap, rt.stdin())?;
    let mut stage = Stage::new(heap, rt.stdout())?;
    // The input may never end, so the lines are counted.
    for _ in 0..u64::MAX {
        let Some(line) = next_line(heap, &mut input)? else {
            break;
        };
        stage.line(&line)?;
    }
    stage.end()
}

fn main(rt: HostRuntime) -> io::Result<ExitCode> {
    match arguments(&rt) {
        Asked::Run => {
            run(&rt)?;
            Ok(ExitCode::SUCCESS)
        }
        Asked::Help => {
            print!(rt; "{HELP}")?;
            Ok(ExitCode::SUCCESS)
        }
        Asked::Unknown => {
            println!(rt; "bad arguments: there is only --help")?;
            Ok(ExitCode::FAILURE)
        }
    }
}

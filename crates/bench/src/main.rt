// The bench program: a table and a list of 512 places, cleared at start; command records of 48 bytes on standard input,
// a line for each on standard output. What a command does is `command::run`, what a line is `line`; here commands are
// counted, and bytes read and written. What fails is told on standard error.
#![tactic(auto)]

ghost use Rattle.std.specs.Prelude.{◌-◌, ◌≤◌, ◌<◌, ◌≡◌, length, take, IfOk};
ghost use Rattle.line.specs.Fits.{room_for};
ghost use Rattle.command.specs.Command.{command_of, command_length};
ghost use Rattle.bench.specs.Program.{places, Answer, answer_of, Reached, Says};

use command::COMMAND;
use line::Line;
use std::io::Read;
use std::{fmt, io};

const TABLE: usize = 32768;

const PLACES: usize = 512;

// The longest line of so many cards.
const LINE: usize = 5679;

// The longest line of left-over bytes.
const CUT: usize = 25;

// Why the program ends before its input does: the command or the line of this number failed.
#[derive(Clone, Copy)]
enum Failure {
    Reading(u64),
    Writing(u64),
}

impl fmt::Display for Failure {
    fn fmt<W: fmt::Write>(&self, f: &mut fmt::Formatter<W>) -> fmt::Result {
        match self {
            Failure::Reading(number) => {
                write!(f, "could not read command {number} from standard input")
            }
            Failure::Writing(number) => {
                write!(f, "could not write line {number} to standard output")
            }
        }
    }
}

// Writes to standard output, as nothing else does: only what the program has to say in place of the line of this
// number, with all commands before it done.
fn print(rt: &impl Print, number: u64, bytes: &[u8]) -> Result<(), Failure>
    requires { Says (number - 1) bytes.now }
{
    rt.write_all(bytes).map_err(|_| Failure::Writing(number))
}

// Prints how many bytes were left over, if any were.
fn print_cut(rt: &impl Print, number: u64, left: usize) -> Result<(), Failure>
    requires { left < command_length }
{
    if left == 0 {
        return Ok(());
    }
    let mut room = [0u8; CUT];
    let n = line::put_cut(&mut room, left as u64).unwrap();
    print(rt, number, &room[..n])
}

// The table and the list that commands work on.
#[derive(Drop)]
struct Bench {
    table: [u8; TABLE],
    list: [u32; PLACES],
}

impl Bench {
    // Runs the command of this number and puts its line into the room lent; answers its length.
    fn answer(&mut self, number: u64, input: &[u8], room: &mut [u8]) -> usize
        requires { room_for places ≤ length room.old }
        ensures { (result ≤ length room.new) × ◌≡◌ {A = Answer}
            (record { line = take result room.new; table = self.new.table; list = self.new.list })
            (answer_of number (command_of input.now self.old.table self.old.list)) }
    {
        let list = &mut self.list[..];
        let answer = command::run(input, &mut self.table, list);
        let counts = refusals::counts_in(answer);
        let line = Line {
            number,
            refusal: refusals::told(answer),
            count: counts.count,
            found: counts.found,
            cards: list,
        };
        line::put_line(room, &line).unwrap()
    }

    // Answers the command of this number on standard output.
    fn respond(&mut self, rt: &impl Print, number: u64, input: &[u8]) -> Result<(), Failure>
        requires { (1 ≤ number) × Reached (number - 1) self.old.table self.old.list }
        ensures { Reached number self.new.table self.new.list }
    {
        let mut room = [0u8; LINE];
        let n = self.answer(number, input, &mut room);
        print(rt, number, &room[..n])
    }
}

// Reads until the record is full or the input ends, each time as many bytes as come; answers how many are there, which
// `read_exact` would not tell.
fn read_record(from: &mut impl Read, input: &mut [u8]) -> io::Result<usize>
    ensures { IfOk result (λ n. n ≤ length input.old) }
{
    let mut have = 0;
    while have < input.len() {
        let more = from.read(&mut input[have..])?;
        if more == 0 {
            break;
        }
        have += more;
    }
    Ok(have)
}

// Reads commands, runs them and prints their lines, until the input ends. Bytes that stand before a failure are not
// cut: the input has not ended. A proved loop has to end, and nothing says that the input does: it ends with the
// command numbers, which no run uses up.
fn run(rt: &impl Print, from: &mut impl Read) -> Result<(), Failure> {
    let mut bench = Bench {
        table: [0u8; TABLE],
        list: [0u32; PLACES],
    };
    for done in 0..u64::MAX {
        let number = done + 1;
        let mut input = [0u8; COMMAND];
        let got = read_record(from, &mut input).map_err(|_| Failure::Reading(number))?;
        if got < COMMAND {
            return print_cut(rt, number, got);
        }
        bench.respond(rt, number, &input)?;
    }
    Ok(())
}

// Where the failure can't be told either, nobody is left to tell.
fn main(rt: HostRuntime) {
    let mut from = rt.stdin();
    if let Err(failure) = run(&rt, &mut from) {
        let _ = eprintln!(rt; "bench: {failure}");
    }
}

// One command of the bench program, run on its table and its list.
#![tactic(auto)]

ghost use Rattle.std.specs.Prelude.{◌≡◌, length};
ghost use Rattle.refusals.specs.Told.{told, distances_in, found_in};
ghost use Rattle.command.specs.Command.{Done, operation_of, command_of, command_length};
ghost use Rattle.command.specs.Operation.{Decodes};

use refusals::{Found, Refusal};

// The bytes of a command record.
pub const COMMAND: usize = 48;

// What a command asks for.
#[derive(Clone, Copy, Debug, PartialEq, Eq)]
pub enum Operation {
    Insert,
    Delete,
    Search,
    Check,
}

// By its number; any other is refused.
impl TryFrom<u8> for Operation {
    type Error = Refusal;

    ghost try_from_gives = { Decodes };

    fn try_from(number: u8) -> Result<Self, Refusal> {
        match number {
            1 => Ok(Operation::Insert),
            2 => Ok(Operation::Delete),
            3 => Ok(Operation::Search),
            4 => Ok(Operation::Check),
            _ => Err(Refusal::Argument),
        }
    }
}

// Runs the operation of a whole record. Fields that it does not need are ignored.
fn operate(command: &[u8], table: &mut [u8], list: &mut [u32]) -> Result<Found, Refusal>
    requires { length command.now ≡ command_length }
    ensures { ◌≡◌ {A = Done}
        (record {
          refusal = told result;
          count = distances_in result;
          found = found_in result;
          table = table.new;
          list = list.new;
        })
        (operation_of command.now table.old list.old) }
{
    let kind = command[1];
    let arity = command[2];
    let card = number::get::<4, u32>(command, 4);
    let radius = number::get::<4, u32>(command, 8);
    let signature = &command[16..COMMAND];
    match Operation::try_from(command[0])? {
        Operation::Insert => {
            let count = insert::insert(table, card, kind, arity, signature)?;
            Ok(Found { count, found: 0 })
        }
        Operation::Delete => {
            let count = delete::delete(table, card, arity)?;
            Ok(Found { count, found: 0 })
        }
        Operation::Search => search::search(table, kind, signature, radius, list),
        Operation::Check => {
            soundness::check(table)?;
            Ok(Found { count: 0, found: 0 })
        }
    }
}

// Runs a command, and answers what its line counts; a record of another length is refused.
pub fn run(command: &[u8], table: &mut [u8], list: &mut [u32]) -> Result<Found, Refusal>
    ensures { ◌≡◌ {A = Done}
        (record {
          refusal = told result;
          count = distances_in result;
          found = found_in result;
          table = table.new;
          list = list.new;
        })
        (command_of command.now table.old list.old) }
{
    if command.len() != COMMAND {
        return Err(Refusal::Argument);
    }
    operate(command, table, list)
}

// What calls ask of what they are told, and of the table's kind.
ghost use Rattle.std.specs.Prelude.{◌≡◌};
ghost use Rattle.admission.specs.Query.{known_query, known_change, other_found};

use refusals::limit::{CHILDREN, SIGNATURE};
use survey::Findings;

// Whether the kind is known and the signature has its 32 bytes; if not, the call is refused with ARGUMENT.
pub fn known_query(kind: u8, signature: &[u8]) -> bool
    ensures { result ≡ known_query kind signature.now }
{
    distance::known_kind(kind) & (signature.len() == SIGNATURE)
}

// Whether there is a card, and the arity is 1 to 8; if not, a call that changes the table is refused with ARGUMENT.
pub fn known_change(card: u32, arity: u8) -> bool
    ensures { result ≡ known_change card arity }
{
    (1 <= card) & ((1 <= arity) & (arity <= CHILDREN))
}

// Whether the table in which this was found is used and of another kind; if so, the call is refused with KIND.
pub fn other_kind(found: Findings, kind: u8) -> bool
    ensures { result ≡ other_found found kind }
{
    (0 < found.used) & (found.kind != kind)
}

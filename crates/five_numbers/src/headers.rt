// The header of five numbers, in wire order.
ghost use Rattle.std.specs.Prelude.{◌≡◌, ◌^◌, ◌<◌, IfOk};
ghost use Rattle.words.specs.Halves.{halves};
ghost use Rattle.rules.specs.Replies.{verdict_reply, need};
ghost use Rattle.five_numbers.specs.Numbers.{five_of};
ghost use Rattle.five_numbers.specs.Fields.{port_bits, protocol_bits, header_of, in_fields};
ghost use Rattle.five_numbers.specs.Calls.{built_reply, header_reply};

use crate::Numbers;
use rules::{Reason, Refusal, Wire, refused};
use words::Word;

// Five numbers as one word. The destination address stands across its halves: its first 8 bits in the high one, and 24 in the low one.
fn joined(numbers: Numbers) -> Word
    requires { (numbers.source_port < 2 ^ port_bits) × (numbers.destination_port < 2 ^ port_bits)
        × (numbers.protocol < 2 ^ protocol_bits) }
    ensures { result ≡ halves (header_of (five_of numbers)) }
{
    let source = u64::from(numbers.source);
    let destination = u64::from(numbers.destination);
    let source_port = u64::from(numbers.source_port);
    let destination_port = u64::from(numbers.destination_port);
    let protocol = u64::from(numbers.protocol);
    let first = destination / 16777216;
    let rest = destination % 16777216;
    Word {
        low: rest * 1099511627776 + source_port * 16777216 + destination_port * 256 + protocol,
        high: source * 256 + first,
    }
}

// Whether each of five numbers is one of its field; an address always is.
#[tactic(auto, unfolding(crate::specs::Fields::in_fields))]
fn in_fields(numbers: Numbers) -> bool
    ensures { result ≡ in_fields (five_of numbers) }
{
    numbers.source_port < 65536 && numbers.destination_port < 65536 && numbers.protocol < 256
}

// Checks five numbers: 6 where one of them is outside its field.
fn fields_verdict(numbers: Numbers) -> Result<(), Refusal>
    ensures { verdict_reply result ≡ need (in_fields (five_of numbers)) 6 0 0 }
{
    if in_fields(numbers) {
        return Ok(());
    }
    refused(Reason::Header, 0, 0)
}

// The header of five numbers: 6 where one of them is outside its field.
#[tactic(auto, unfolding(crate::specs::Calls::header_reply))]
pub fn header(numbers: Numbers) -> Result<Wire, Refusal>
    ensures reply { built_reply result ≡ header_reply (five_of numbers) }
    ensures word { IfOk result (λ h. h.0 ≡ halves (header_of (five_of numbers))) }
{
    fields_verdict(numbers)?;
    Ok(Wire(joined(numbers)))
}

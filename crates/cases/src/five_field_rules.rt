// Five-field rules, as a case hands them in.
use crate::given::{MOST, numbers, read_fields, read_shorts};
use crate::source::{Source, Unread};
use five_fields::FiveFieldRules;

// The ten slices of a list of five-field rules.
#[derive(Drop)]
pub struct Columns {
    pub source: Vec<u32>,
    pub source_length: Vec<u32>,
    pub destination: Vec<u32>,
    pub destination_length: Vec<u32>,
    pub source_low: Vec<u32>,
    pub source_high: Vec<u32>,
    pub destination_low: Vec<u32>,
    pub destination_high: Vec<u32>,
    pub protocol: Vec<u32>,
    pub decision: Vec<u16>,
}

impl Columns {
    // The rules as they are lent.
    pub fn rules(&self) -> FiveFieldRules<'_> {
        FiveFieldRules {
            source: self.source.as_slice(),
            source_length: self.source_length.as_slice(),
            destination: self.destination.as_slice(),
            destination_length: self.destination_length.as_slice(),
            source_low: self.source_low.as_slice(),
            source_high: self.source_high.as_slice(),
            destination_low: self.destination_low.as_slice(),
            destination_high: self.destination_high.as_slice(),
            protocol: self.protocol.as_slice(),
            decision: self.decision.as_slice(),
        }
    }
}

// The ten slices one by one.
fn by_slices(case: &mut Source) -> Result<Columns, Unread> {
    let source = read_fields(case, b"source")?;
    let source_length = read_fields(case, b"source_length")?;
    let destination = read_fields(case, b"destination")?;
    let destination_length = read_fields(case, b"destination_length")?;
    let source_low = read_fields(case, b"source_low")?;
    let source_high = read_fields(case, b"source_high")?;
    let destination_low = read_fields(case, b"destination_low")?;
    let destination_high = read_fields(case, b"destination_high")?;
    let protocol = read_fields(case, b"protocol")?;
    let decision = read_shorts(case, b"decision")?;
    Ok(Columns {
        source,
        source_length,
        destination,
        destination_length,
        source_low,
        source_high,
        destination_low,
        destination_high,
        protocol,
        decision,
    })
}

// Rules of ten numbers each in brackets.
fn by_numbers(case: &mut Source) -> Result<Columns, Unread> {
    let start = case.here();
    let all: Vec<u32> = numbers(case, 32, 10 * MOST)?;
    let (rows, rest) = all.as_chunks::<10>();
    if !rest.is_empty() {
        return Err(start);
    }
    let mut rules = Columns {
        source: Vec::new(case.alloc),
        source_length: Vec::new(case.alloc),
        destination: Vec::new(case.alloc),
        destination_length: Vec::new(case.alloc),
        source_low: Vec::new(case.alloc),
        source_high: Vec::new(case.alloc),
        destination_low: Vec::new(case.alloc),
        destination_high: Vec::new(case.alloc),
        protocol: Vec::new(case.alloc),
        decision: Vec::new(case.alloc),
    };
    for [a, b, c, d, e, f, g, h, p, q] in rows {
        rules.source.push(*a)?;
        rules.source_length.push(*b)?;
        rules.destination.push(*c)?;
        rules.destination_length.push(*d)?;
        rules.source_low.push(*e)?;
        rules.source_high.push(*f)?;
        rules.destination_low.push(*g)?;
        rules.destination_high.push(*h)?;
        rules.protocol.push(*p)?;
        rules.decision.push(u16::try_from(*q).ok().ok_or(start)?)?;
    }
    Ok(rules)
}

// The argument `rules`: rules of ten numbers, or the ten slices.
pub fn read_rules(case: &mut Source) -> Result<Columns, Unread> {
    case.name(b"rules")?;
    if case.is_next(b"source") {
        by_slices(case)
    } else {
        by_numbers(case)
    }
}

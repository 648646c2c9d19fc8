// What a case tries.
#[derive(Clone, Copy)]
pub enum Kind {
    Build,
    Hold,
    Plan,
    Run,
    Chain,
}

impl From<u8> for Kind {
    fn from(number: u8) -> Kind {
        match number {
            0 => Kind::Build,
            1 => Kind::Hold,
            3 => Kind::Run,
            4 => Kind::Chain,
            _ => Kind::Plan,
        }
    }
}

// Its kind, the numbers beside it, and its two files.
#[derive(Clone, Copy)]
pub struct Case<'a> {
    pub kind: Kind,
    pub number: u32,
    pub words: usize,
    pub place: usize,
    pub lent: usize,
    pub first: &'a [u8],
    pub second: &'a [u8],
}

// The count in the first two bytes, low byte first, and what stands behind it.
fn split_count(bytes: &[u8]) -> Option<(usize, &[u8])> {
    let (count, rest) = bytes.split_first_chunk::<2>()?;
    Some((usize::from(u16::from_le_bytes(*count)), rest))
}

// The first case, and what stands behind it.
pub fn split_case(bytes: &[u8]) -> Option<(Case<'_>, &[u8])> {
    let (kind, rest) = bytes.split_first()?;
    let (number, rest) = rest.split_first_chunk::<4>()?;
    let (words, rest) = split_count(rest)?;
    let (place, rest) = split_count(rest)?;
    let (lent, rest) = split_count(rest)?;
    let (first_size, rest) = split_count(rest)?;
    let (second_size, rest) = split_count(rest)?;
    let (first, rest) = rest.split_at_checked(first_size)?;
    let (second, rest) = rest.split_at_checked(second_size)?;
    let case = Case {
        kind: Kind::from(*kind),
        number: u32::from_le_bytes(*number),
        words,
        place,
        lent,
        first,
        second,
    };
    Some((case, rest))
}

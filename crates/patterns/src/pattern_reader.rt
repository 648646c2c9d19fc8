ghost use Rattle.std.specs.Prelude.{◌≡◌, ◌≤◌, drop};
ghost use Rattle.model.specs.Pattern.{most_variables};
ghost use Rattle.model.specs.PatternFile.{read_pattern};
ghost use Rattle.model.specs.Store.{decoded};
ghost use Rattle.catalog.specs.Lookups.{Validated};
ghost use Rattle.patterns.specs.Replies.{NumberAs, position, MemberReadOf, PatternReadAs};

use catalog::lookup::predicate_place;
use model::pattern::{Position, TriplePattern};
use model::refusal::Refusal;
use numbers::number::read_number;
use positions::pattern::{MOST_TRIPLE_PATTERNS, Member, Pattern, no_member};
use positions::positions::{check_position, position_of, variables_with};
use tables::limits::MOST_TERM;

// A triple pattern that was read, the numbers of its subject and object, how many variables there are with it, and the place after it.
#[derive(Clone, Copy)]
struct ReadMember {
    member: Member,
    subject: u32,
    object: u32,
    met: u32,
    next: usize,
}

// The number of the subject or the object at a place of the bytes, `met` variables before it, and the place after it.
fn read_position(s: &[u8], at: usize, met: u32) -> Result<(u32, usize), Refusal>
    ensures { NumberAs (position met (drop at s.now)) s.now result }
{
    let Some((number, next)) = read_number(s, at) else {
        return Err(Refusal::PatternNumberMalformed);
    };
    check_position(position_of(number), met)?;
    Ok((number, next))
}

// The triple pattern at a place of the bytes, `met` variables before it: subject, predicate, object, each questioned as it is read.
fn read_member(w: &[u32], s: &[u8], at: usize, met: u32) -> Result<ReadMember, Refusal>
    requires { Validated w.now × (met ≤ most_variables) }
    ensures { MemberReadOf (decoded w.now).site met at s.now result }
{
    let (first, middle) = read_position(s, at, met)?;
    let subject = position_of(first);
    let Some((second, after)) = read_number(s, middle) else {
        return Err(Refusal::PatternNumberMalformed);
    };
    let predicate = position_of(second);
    let Position::Term(term) = predicate else {
        return Err(Refusal::PredicateNotATerm);
    };
    if MOST_TERM < term {
        return Err(Refusal::PredicateNotATerm);
    }
    let table = predicate_place(w, term).ok_or(Refusal::PredicateNotDeclared)?;
    let met_then = variables_with(met, subject);
    let (third, next) = read_position(s, after, met_then)?;
    let object = position_of(third);
    let triple = TriplePattern {
        subject,
        predicate,
        object,
    };
    Ok(ReadMember {
        member: Member { triple, table },
        subject: first,
        object: third,
        met: variables_with(met_then, object),
        next,
    })
}

// What was read of a pattern's file: the pattern and the numbers of its subjects and objects. The numbers stand beside the pattern, since it is
// copied where they are not asked for.
#[derive(Clone, Copy)]
pub struct PatternRead {
    pub pattern: Pattern,
    pub subjects: [u32; 8],
    pub objects: [u32; 8],
}

// Questions 11 to 17.
pub fn read_pattern(w: &[u32], s: &[u8]) -> Result<PatternRead, Refusal>
    requires { Validated w.now }
    ensures { PatternReadAs (decoded w.now).site (read_pattern (decoded w.now).site s.now) result }
{
    let Some((n, at)) = read_number(s, 0) else {
        return Err(Refusal::PatternNumberMalformed);
    };
    let count = n as usize;
    if count < 1 || MOST_TRIPLE_PATTERNS < count {
        return Err(Refusal::PatternSizeOutOfRange);
    }
    let mut members = [no_member(); 8];
    let mut subjects = [0u32; 8];
    let mut objects = [0u32; 8];
    let mut met: u32 = 0;
    let mut next = at;
    for i in 0..count {
        let read = read_member(w, s, next, met)?;
        members[i] = read.member;
        subjects[i] = read.subject;
        objects[i] = read.object;
        met = read.met;
        next = read.next;
    }
    if next < s.len() {
        return Err(Refusal::PatternNotEnded);
    }
    let pattern = Pattern {
        members,
        count,
        width: met,
    };
    Ok(PatternRead {
        pattern,
        subjects,
        objects,
    })
}

ghost use Rattle.std.specs.Prelude.{drop};
ghost use Rattle.model.specs.Results.{refusal_number};
ghost use Rattle.site_elements.specs.Reading.{term, ValueAs};

use model::refusal::Refusal;
use numbers::number::read_number;
use tables::limits::MOST_TERM;

// The term at a place of a site file, and the place after it: question 2, and the one that `not_a_term` stands for.
pub fn read_term(s: &[u8], at: usize, not_a_term: Refusal) -> Result<(u32, usize), Refusal>
    ensures { ValueAs (term (refusal_number not_a_term) (drop at s.now)) s.now result }
{
    let Some((term, next)) = read_number(s, at) else {
        return Err(Refusal::SiteNumberMalformed);
    };
    if MOST_TERM < term {
        return Err(not_a_term);
    }
    Ok((term, next))
}

ghost use Rattle.std.specs.Prelude.{◌≡◌, ◌≤◌, length, take};
ghost use Rattle.std.specs.Counts.{IsPrefixLen};
ghost use Rattle.model.specs.Chain.{site_buffer_bytes, check_buffer_bytes};
ghost use Rattle.model.specs.Files.{taken};
ghost use Rattle.model.specs.Text.{screen};
ghost use Rattle.files.specs.Reading.{IsRead, said};

use chain::check::check_site;
use files::reading::{Reading, taken};
use text::answers::put_answer;

const ROW_WORDS: usize = 4096;

// Puts all that is printed of the two files, as they were read, at the front of the screen's bytes, and gives its length.
pub fn show(site: &[u8], zones: Reading, check: &[u8], question: Reading, out: &mut [u8]) -> usize
    requires { IsRead zones site.now × IsRead question check.now × (length site.now ≡ site_buffer_bytes) × (length check.now ≡ check_buffer_bytes) × (86070 ≤ length out.old) }
    ensures prefix_len { IsPrefixLen result out.new }
    ensures out_after { take result out.new ≡ screen (taken site.now zones.size (said zones.end)) (taken check.now question.size (said question.end)) }
{
    let site = &site[..taken(site, zones.size, zones.end.said())];
    let check = &check[..taken(check, question.size, question.end.said())];
    let mut rows = [0u32; ROW_WORDS];
    let answer = check_site(site, check, &mut rows);
    put_answer(answer, &rows, out)
}

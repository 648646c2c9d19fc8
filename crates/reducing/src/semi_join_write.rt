ghost use Rattle.std.specs.Prelude.{◌≡◌, ◌≤◌, ◌+◌, ◌*◌, length};
ghost use Rattle.std.proofs.lemmas.List.Edits.{sets};
ghost use Rattle.model.specs.Store.{table_words};
ghost use Rattle.tables.specs.SemiJoins.{Inside, left_of};

use tables::semi_joins::SemiJoin;

// Writes the rows that a semi-join leaves, from `to` on, and gives the place after them.
pub fn write_semi_join(w: &[u32], join: SemiJoin, out: &mut [u32], to: usize) -> usize
    requires rows_in_bounds { Inside w.now join.own × Inside w.now join.partner }
    requires out_in_bounds { to + 2 * length (left_of w.now join) ≤ length out.old }
    ensures value { result ≡ to + 2 * length (left_of w.now join) }
    ensures out_after { out.new ≡ sets out.old to (table_words (left_of w.now join)) }
{
    let own = join.own.column.offset();
    let other = join.partner.column.offset();
    let mut next = to;
    'rows: for i in 0..join.own.rows {
        let row = join.own.start + 2 * i;
        for j in 0..join.partner.rows {
            if w[join.partner.start + 2 * j + other] == w[row + own] {
                out[next] = w[row];
                out[next + 1] = w[row + 1];
                next += 2;
                continue 'rows;
            }
        }
    }
    next
}

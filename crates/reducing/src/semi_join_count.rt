ghost use Rattle.std.specs.Prelude.{◌≡◌, length};
ghost use Rattle.tables.specs.SemiJoins.{Inside, left_of};

use tables::semi_joins::SemiJoin;

// How many rows a semi-join leaves: those with a partner, a row whose value in the other column is the same.
pub fn count_semi_join(w: &[u32], join: SemiJoin) -> usize
    requires { Inside w.now join.own × Inside w.now join.partner }
    ensures { result ≡ length (left_of w.now join) }
{
    let own = join.own.column.offset();
    let other = join.partner.column.offset();
    let mut left: usize = 0;
    'rows: for row in 0..join.own.rows {
        let value = w[join.own.start + 2 * row + own];
        for j in 0..join.partner.rows {
            if w[join.partner.start + 2 * j + other] == value {
                left += 1;
                continue 'rows;
            }
        }
    }
    left
}

//! The values that variables, terms and numbers can have, and a search of all.

ghost use Rattle.std.specs.Prelude.{◌≡◌, ◌<◌};

use crate::tests::mixed::Difference;
use solve_solver::PLit;

/// The values of three plain variables, the classes of three terms and three numbers.
#[derive(Drop)]
pub struct World {
    pub plain: [bool; 3],
    pub classes: [u32; 3],
    pub numbers: [i64; 3],
}

impl World {
    /// How many are tried.
    pub const COUNT: u32 = 8 * 5 * 13 * 13;

    /// One of all worlds in which number 0 is zero and the others are from -6 to 6. Where bounds
    /// from -3 to 2 on differences of three numbers can be met, such numbers meet them: a shortest
    /// path between two of them has at most two bounds.
    pub fn numbered(code: u32) -> World {
        let classes = match code / 8 % 5 {
            0 => [0, 0, 0],
            1 => [0, 0, 1],
            2 => [0, 1, 0],
            3 => [0, 1, 1],
            _ => [0, 1, 2],
        };
        World {
            plain: [code % 2 == 0, code / 2 % 2 == 0, code / 4 % 2 == 0],
            classes,
            numbers: [
                0,
                i64::from(code / 40 % 13) - 6,
                i64::from(code / 520 % 13) - 6,
            ],
        }
    }

    /// Whether a difference holds.
    fn meets(&self, difference: &Difference) -> bool {
        let x = i128::from(self.numbers[difference.x as usize]);
        let y = i128::from(self.numbers[difference.y as usize]);
        x - y <= i128::from(difference.c)
    }

    /// The value of a variable: three are plain, then come the equalities of three terms, and then
    /// the differences.
    pub fn value(&self, differences: &[Difference], var: usize) -> bool {
        let [a, b, c] = self.classes;
        match var {
            0 => self.plain[0],
            1 => self.plain[1],
            2 => self.plain[2],
            3 => a == b,
            4 => b == c,
            5 => a == c,
            _ => differences.get(var - 6).is_some_and(|d| self.meets(d)),
        }
    }

    /// Whether each clause is met.
    pub fn meets_each(&self, differences: &[Difference], clauses: &[Vec<PLit>]) -> bool {
        clauses.iter().all(|clause| {
            clause
                .iter()
                .any(|l| self.value(differences, l.var as usize) == l.plus)
        })
    }
}

/// Whether some world meets each clause.
pub fn is_met_by_some(differences: &[Difference], clauses: &[Vec<PLit>]) -> bool {
    (0..World::COUNT).any(|code| World::numbered(code).meets_each(differences, clauses))
}

//! Which of up to 64 parts the records with a key go to.
#![tactic(auto)]

ghost use Rattle.std.specs.Prelude.{◌≡◌, ℕ, ℤ, ◌<◌, ◌≤◌};
ghost use Rattle.key_partition.specs.Part.{part_of};

/// The part, from 0 to `parts` - 1, that the records with the key go to: the key modulo 2^64, modulo `parts`.
/// There are 1 to 64 parts.
pub fn part_of(key: i64, parts: u16) -> u16
    requires some { 1 ≤ parts }
    requires few { parts ≤ 64 }
    ensures { result ≡ part_of key parts }
{
    (key.cast_unsigned() % u64::from(parts)) as u16
}

/// A law, with nothing to run: the part of a key is one of the parts.
pub fn each_key_has_a_part()
    ensures { (key : ℤ) (parts : ℕ) → 1 ≤ parts → part_of key parts < parts }
{}

#[cfg(test)]
mod tests {
    use super::*;
    use std::test::Fail;

    #[test]
    fn keys_go_to_their_parts(rt: HostRuntime) -> Result<(), Fail> {
        // 2^64 is 1 modulo 3, 2 modulo 7 and 16 modulo 60, so that -1 is 0, 1 and 15 there.
        let rows: [(i64, u16, u16); 10] = [
            (0, 1, 0),
            (7, 4, 3),
            (64, 64, 0),
            (-1, 1, 0),
            (-1, 3, 0),
            (-1, 7, 1),
            (-1, 60, 15),
            (-1, 64, 63),
            (-10, 3, 0),
            (i64::MIN, 7, 1),
        ];
        for (key, parts, part) in rows {
            assert!(rt; 1 <= parts && parts <= 64);
            assert_eq!(rt; part_of(key, parts), part);
        }
        Ok(())
    }
}

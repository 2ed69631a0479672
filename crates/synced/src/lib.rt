// A list of which a first part is safe from a power cut.
#![tactic(auto)]

ghost use Rattle.std.specs.Prelude.{◌≤◌, vec_len};

mod calls;

// The items, the oldest first; so many of them are synced, which is to say safe.
#[derive(Drop)]
pub struct Synced<T> {
    items: Vec<T>,
    synced: usize,
    ghost within: { synced ≤ vec_len items },
}

#[cfg(test)]
mod tests {
    use super::*;
    use std::test::Fail;

    // There is memory for a few items, and a cut takes those that were not synced, the newest first.
    #[test]
    fn finds_memory_for_a_few(rt: HostRuntime) -> Result<(), Fail> {
        let mut list: Synced<u8> = Synced::new(rt.alloc());
        list.reserve(1)?;
        list.push_reserved(1);
        list.sync();
        list.extend_from_slice(&[2, 3, 4])?;
        assert_eq!(rt; list.items(), [1, 2, 3, 4].as_slice());
        list.cut(1);
        assert_eq!(rt; list.items(), [1, 2].as_slice());
        assert_eq!(rt; list.safe(), [1].as_slice());
        Ok(())
    }
}

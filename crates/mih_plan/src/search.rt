ghost use Rattle.std.specs.Prelude.{◌≡◌, ◌+◌, ◌^◌, ◌<◌, ◌≤◌, ◌⊎◌, ◌↔◌, [], ◌∷◌, IfSome, IfNone, IsTrue};
ghost use Rattle.mih_plan.specs.inner.Walks.{near_from, start_of};

use iscc_header::distance;

/// A block of buckets: those that have all bits but the lowest ones in common.
#[derive(Clone, Copy, Debug)]
pub struct Block {
    /// The common bits, as a number.
    pub common: u32,
    /// How many bits are not in common.
    pub height: u32,
}

/// A bucket that was found, and the block from which on the search goes on.
#[derive(Clone, Copy, Debug)]
pub struct Near {
    pub bucket: u32,
    pub next: Block,
}

/// The first bucket, from a block on, that differs from the centre in fewer bits than the limit.
///
/// The search goes over blocks from left to right. A block whose common bits differ in too many places is passed whole. Where
/// no further bit may differ, the block has one such bucket, with the lowest bits of the centre. Another block is entered.
/// So the greatest plan takes some two blocks for each of its probes.
pub fn first_near(centre: u32, limit: u32, from: Block, bits: u32) -> Option<Near>
    requires bits { bits ≤ 16 }
    requires centre { centre < 2 ^ bits }
    requires height { from.height ≤ bits }
    requires start { start_of from ≤ 2 ^ bits }
    ensures found { IfSome result (λ near. near_from centre limit (start_of from) bits ≡ near.bucket ∷ near_from centre limit (start_of near.next) bits) }
    ensures bucket { IfSome result (λ near. near.bucket < 2 ^ bits) }
    ensures height { IfSome result (λ near. near.next.height ≤ bits) }
    ensures start { IfSome result (λ near. start_of near.next ≤ 2 ^ bits) }
    ensures none { IfNone result (near_from centre limit (start_of from) bits ≡ []) }
{
    let mut block = from;
    while block.common << block.height < 1 << bits {
        let apart = distance(block.common as u64, (centre >> block.height) as u64);
        if apart >= limit {
            block = block_after(block, bits);
        } else if has_one_near(apart, limit, block.height) {
            let bucket = (block.common << block.height) + centre % (1 << block.height);
            let next = block_after(block, bits);
            return Some(Near { bucket, next });
        } else {
            block = Block {
                common: block.common * 2,
                height: block.height - 1,
            };
        }
    }
    None
}

// Whether no more bits may differ in a block whose common bits do so in fewer places than the limit, or none is left.
fn has_one_near(apart: u32, limit: u32, height: u32) -> bool
    requires { apart < limit }
    ensures { IsTrue result ↔ ((apart + 1 ≡ limit) ⊎ (height ≡ 0)) }
{
    apart + 1 == limit || height == 0
}

// The block behind this one: of the same height, or the two halves of a higher one together.
fn block_after(block: Block, bits: u32) -> Block
    requires bits { bits ≤ 16 }
    requires height { block.height ≤ bits }
    requires start { start_of block < 2 ^ bits }
    ensures start { start_of result ≡ start_of block + 2 ^ block.height }
    ensures height { result.height ≤ bits }
    ensures step { result.height ≤ block.height + 1 }
{
    let common = block.common + 1;
    if common % 2 == 0 && block.height < bits {
        return Block {
            common: common / 2,
            height: block.height + 1,
        };
    }
    Block {
        common,
        height: block.height,
    }
}

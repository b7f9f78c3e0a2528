ghost use Rattle.std.specs.Prelude.{◌≡◌, ◌<◌, ◌≤◌, ◌^◌};
ghost use Rattle.mih_plan.specs.Buckets.{bucket_of};

use iscc_header::Items;

/// A bucket of a table that a query looks into.
#[derive(Clone, Copy, Debug, PartialEq, Eq)]
pub struct Probe {
    /// The table, from 0 to 3: that of the first 16 bits of a body comes first.
    pub table: u32,
    /// The number of the bucket in that table.
    pub bucket: u32,
}

/// The probes of a query, by table and then by bucket.
pub type Plan = Items<Probe>;

/// The bucket of a body in a table: the low `bits` bits of its substring for that table.
///
/// Substring 0 has the 16 highest bits of the body, substring 3 the 16 lowest.
pub fn bucket_of(body: u64, table: u32, bits: u32) -> u32
    requires table { table < 4 }
    requires least { 4 ≤ bits }
    requires most { bits ≤ 16 }
    ensures value { result ≡ bucket_of body table bits }
{
    let substring = body >> (48 - 16 * table);
    (substring % (1 << bits)) as u32
}

ghost use Rattle.std.specs.Prelude.{◌≡◌, ◌≤◌};
ghost use Rattle.reg_words.specs.Memory.{area_sizes, areas_of};

/// The first word of each area of the table, and the number of all words.
///
/// The areas follow each other in this order. Word 0 is spare, and always 0.
#[derive(Clone, Copy, Debug, PartialEq, Eq)]
pub struct Areas {
    /// TAKE: one word, how many entries were taken.
    pub take: u32,
    /// PUT: one word, how many entries were put.
    pub put: u32,
    /// SWEEP: one word, how far reclamation has come.
    pub sweep: u32,
    /// PIN: a word for each caller.
    pub pin: u32,
    /// HEAD: for each of 4 tables a word for each of its `2^bits` buckets.
    pub head: u32,
    /// CODE: a word for each entry, the body of the unit in it.
    pub code: u32,
    /// STAMP: a word for each entry.
    pub stamp: u32,
    /// NEXT: for each of 4 tables a word for each entry.
    pub next: u32,
    /// GIVE: a word for each entry, the ring of free entries.
    pub give: u32,
    /// LOG: a word for each place.
    pub log: u32,
    /// NOTE: a word for each place, the body of the unit that was declared there.
    pub note: u32,
    /// How many words there are.
    pub total: u32,
}

impl Areas {
    /// The areas of a table with so many entries, places of the log, bits of a bucket and callers. There are at most
    /// 15,990,804 words.
    pub fn of(entries: u32, log: u32, bits: u32, callers: u32) -> Areas
        requires some_entries { 1 ≤ entries }
        requires few_entries { entries ≤ 1_048_576 }
        requires some_places { 1 ≤ log }
        requires few_places { log ≤ 4_194_304 }
        requires some_bits { 4 ≤ bits }
        requires few_bits { bits ≤ 16 }
        requires some_callers { 1 ≤ callers }
        requires few_callers { callers ≤ 16 }
        ensures { result ≡ areas_of (area_sizes entries log bits callers) }
    {
        let pin = 4;
        let head = pin + callers;
        let code = head + (4 << bits);
        let stamp = code + entries;
        let next = stamp + entries;
        let give = next + 4 * entries;
        let log_area = give + entries;
        let note = log_area + log;
        Areas {
            take: 1,
            put: 2,
            sweep: 3,
            pin,
            head,
            code,
            stamp,
            next,
            give,
            log: log_area,
            note,
            total: note + log,
        }
    }
}

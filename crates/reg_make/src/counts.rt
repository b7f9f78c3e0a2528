ghost use Rattle.std.specs.Prelude.{◌≡◌, ◌-◌, ◌^◌, min, List, count_by, sum_by};
ghost use Rattle.reg_model.specs.declared.reply.Row.{Row as ARow};
ghost use Rattle.reg_model.specs.Rows.{is_accepted as is_accepted_row};
ghost use Rattle.reg_model.specs.Runs.{nothing};
ghost use Rattle.reg_session.specs.Sessions.{ServesRound};
ghost use Rattle.reg_make.specs.Counting.{row_count, accepted_count, hits_count, counts_of, capped};
ghost use Rattle.reg_make.specs.Workloads.{Work, IsWork, work_limits, first_calls, second_calls, hit_count, work_counts};

use reg_model::{Call, Reply, Round, Row};

/// What a workload's rows tell: how many calls were made, how many of them were accepted, how many declarations are live at the
/// end, and how many hits the queries have.
#[derive(Clone, Copy, Debug, PartialEq, Eq)]
pub struct Counts {
    pub calls: u64,
    pub accepted: u64,
    pub live: u64,
    pub hits: u64,
}

/// Counts the rows of two rounds. Those of a workload have the counts that the workload tells.
///
/// A count that would be 2^64 or more stays at 2^64 - 1.
pub fn count_work(first: &Round, second: &Round) -> Counts
    ensures rows { result ≡ capped (counts_of first.now second.now) }
    ensures told { (work : Work) → IsWork work → ServesRound (work_limits work work.sessions) nothing (first_calls work) first.now
        → ServesRound (work_limits work 1) first.now.carried (second_calls work) second.now → result ≡ work_counts work }
{
    count_rounds(first, second)
}

fn count_rounds(first: &Round, second: &Round) -> Counts
    ensures { result ≡ capped (counts_of first.now second.now) }
{
    Counts {
        calls: count_calls(first).saturating_add(count_calls(second)),
        accepted: count_accepted(first).saturating_add(count_accepted(second)),
        live: second.carried.list().len() as u64,
        hits: count_hits(first).saturating_add(count_hits(second)),
    }
}

fn count_calls(round: &Round) -> u64
    ensures { result ≡ min (row_count round.now) (2 ^ 64 - 1) }
{
    let mut count: u64 = 0;
    for account in round.accounts.as_slice() {
        count = count.saturating_add(account.as_slice().len() as u64);
    }
    count
}

fn count_accepted(round: &Round) -> u64
    ensures { result ≡ min (accepted_count round.now) (2 ^ 64 - 1) }
{
    let mut count: u64 = 0;
    for account in round.accounts.as_slice() {
        count = count.saturating_add(accepted_rows(account.as_slice()) as u64);
    }
    count
}

fn count_hits(round: &Round) -> u64
    ensures { result ≡ min (hits_count round.now) (2 ^ 64 - 1) }
{
    let mut count: u64 = 0;
    for account in round.accounts.as_slice() {
        count = count.saturating_add(hits_of_rows(account.as_slice()));
    }
    count
}

fn accepted_rows(rows: &[Row]) -> usize
    ensures { result ≡ count_by is_accepted_row rows.now }
{
    rows.iter().filter(|row| is_accepted(row)).count()
}

fn is_accepted(row: &Row) -> bool
    ensures { result ≡ is_accepted_row row.now }
{
    matches!(
        (&row.call, &row.reply),
        (Call::Declare(_), Reply::Id(_)) | (Call::Withdraw(_), Reply::Withdrawn(_))
    )
}

fn hits_of_rows(rows: &[Row]) -> u64
    ensures { result ≡ min (sum_by (λ (row : ARow). hit_count row.reply) rows.now) (2 ^ 64 - 1) }
{
    let mut count: u64 = 0;
    for row in rows {
        if let Reply::Hits(hits) = &row.reply {
            count = count.saturating_add(hits.as_slice().len() as u64);
        }
    }
    count
}

//! Laws of the definitions. The functions do nothing: their contracts are the laws.

ghost use Rattle.reg_model.specs.Laws.{ListTellsHits, LawfulRowsAreSeen, LawfulRowsStand, LoneRoundTellsRows, AccountsTellMerge, MergeKeepsAccounts, AccountsMerge, EmptyAccountsShare, AccountsTakeRow, AccountsTakeUpdate};

/// The hits of a query, and their order, are told by the live declarations, the unit and the radius.
pub fn hits_are_told_by_their_list()
    ensures { ListTellsHits }
{}

/// In a lawful round the points of a session never fall, and an accepted call stands above all that its session had seen.
pub fn each_call_comes_after_what_its_session_had_seen()
    ensures { LawfulRowsAreSeen }
{}

/// In a lawful round each reply is the registry's over the log of the whole round, at the place of the row's point.
pub fn lawful_rows_stand_in_their_log()
    ensures { LawfulRowsStand }
{}

/// Where a round has one session, and a refusal for want of entries comes only below the log's end, the calls
/// determine the rows: two lawful rounds with the same sizes, the same opening and the same calls have the same rows.
pub fn a_lone_round_has_one_list_of_rows()
    ensures { LoneRoundTellsRows }
{}

/// Accounts of sessions have one merge.
pub fn accounts_have_one_merge()
    ensures { AccountsTellMerge }
{}

/// In the merge of accounts the rows of each session are its account.
pub fn a_merge_keeps_each_account()
    ensures { MergeKeepsAccounts }
{}

/// Accounts of sessions that stand in one log merge into one lawful list of rows, which makes that log.
pub fn accounts_in_one_log_merge()
    ensures { AccountsMerge }
{}

/// Sessions that have made no call share the empty log.
pub fn empty_accounts_share_the_empty_log()
    ensures { EmptyAccountsShare }
{}

/// Accounts in one log take a row that changes nothing, also one that stands before the log's end, where the row's session
/// has seen its earlier rows.
pub fn accounts_take_a_row_that_changes_nothing()
    ensures { AccountsTakeRow }
{}

/// Accounts in one log take the row whose update is the log's next; the log grows by it.
pub fn accounts_take_the_next_update()
    ensures { AccountsTakeUpdate }
{}

mod check;
mod ledger;
mod line;
mod live;
mod print;

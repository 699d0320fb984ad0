//! Each public function of th_accounts, th_news, th_orders and th_schedule is called here once, as th_calls does for the other
//! library crates. They stand apart since few crates have to be proved for them.
#![tactic(auto)]

pub mod accounts;
pub mod news;
pub mod orders;
pub mod schedule;

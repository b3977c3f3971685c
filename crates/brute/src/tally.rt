// What is counted over all cases.
use crate::due::Said;
use rules::Refusal;

#[derive(Clone, Copy, Default)]
pub struct Tally {
    pub cases: u64,
    // With pairs that L alone keeps apart; with pairs that tolerances decide; with a query that nothing can meet.
    pub by_light: u64,
    pub by_tolerance: u64,
    pub unsatisfiable: u64,
    // With block pairs too far apart; of these, with others that are joined.
    pub far: u64,
    pub far_and_joined: u64,
    pub empty: u64,
    pub withdrawn: u64,
    // The row limit is met exactly; of these, with blocks of 2 rows or more.
    pub exact: u64,
    pub exact_blocks: u64,
    pub mismatches: u64,
    // Calls, by answer.
    pub read: u64,
    pub settled: u64,
    pub given: u64,
    pub not_yet: u64,
    pub finished: u64,
    // Refused calls, by the refusal's number.
    pub refused: [u64; 20],
    // Pairs of the same sum as the one before.
    pub ties: u64,
}

// Counts one more, if it is so.
pub fn count_if(n: &mut u64, is_so: bool) {
    *n = n.wrapping_add(u64::from(is_so));
}

impl Tally {
    // Counts a refused call.
    pub fn refusal(&mut self, by: Refusal) {
        let number = u32::from(by) as usize;
        if number < self.refused.len() {
            count_if(&mut self.refused[number], true);
        }
    }

    // Counts an answer.
    pub fn answer(&mut self, said: Said) {
        match said {
            Said::Refused(by) => self.refusal(by),
            Said::Opened => {}
            Said::Read => count_if(&mut self.read, true),
            Said::Settled => count_if(&mut self.settled, true),
            Said::Given => count_if(&mut self.given, true),
            Said::NotYet => count_if(&mut self.not_yet, true),
            Said::Finished => count_if(&mut self.finished, true),
        }
    }
}

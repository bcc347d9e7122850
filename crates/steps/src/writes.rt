// What a walk writes to: the tally, the working path, and the three lent outputs.
use crate::paths::WorkingPath;
use crate::tally::Tally;

#[derive(Drop)]
pub struct Outputs<'a> {
    pub tally: Tally,
    pub path: &'a mut WorkingPath,
    pub records: &'a mut [u32],
    pub paths: &'a mut [u8],
    pub payloads: &'a mut [u8],
}

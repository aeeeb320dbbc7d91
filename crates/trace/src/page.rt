// A sink that is a lent buffer, filled from its start on.
ghost use Rattle.trace.specs.Pages.{page_fits, Written, page_laws};

use crate::sink::Sink;
use answer::Refusal;
use decimal::put_number;

#[derive(Drop)]
pub(crate) struct Page<'a> {
    pub buffer: &'a mut [u8],
    pub at: usize,
}

impl<'a> Sink for Page<'a> {
    ghost fits = { page_fits };

    ghost taken = { Written };

    ghost laws = { page_laws };

    #[inline(always)]
    fn bytes(&mut self, bytes: &[u8]) -> Result<(), Refusal> {
        let start = self.at;
        let room = self.buffer.len();
        let next = start
            .checked_add(bytes.len())
            .filter(|&next| next <= room)
            .ok_or(Refusal::Room)?;
        self.buffer[start..next].copy_from_slice(bytes);
        self.at = next;
        Ok(())
    }

    #[inline(always)]
    fn number(&mut self, n: u32, end: u8) -> Result<(), Refusal> {
        let start = self.at;
        let last = put_number(self.buffer, start, n);
        // The same place: the digits have no room, as `place_past` in the contract of `put_number` says it.
        if last == start || self.buffer.len() <= last {
            return Err(Refusal::Room);
        }
        self.buffer[last] = end;
        self.at = last + 1;
        Ok(())
    }
}

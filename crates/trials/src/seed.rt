// Numbers drawn from a seed: the same on every day.
ghost use Rattle.std.specs.Prelude.{◌≤◌};

#[derive(Clone, Copy)]
pub(super) struct Seed(pub(super) u64);

impl Seed {
    // The next number, from 0 to most.
    pub(super) fn draw(&mut self, most: u32) -> u32
        ensures { result ≤ most }
    {
        self.0 = self
            .0
            .wrapping_mul(6_364_136_223_846_793_005)
            .wrapping_add(1_442_695_040_888_963_407);
        ((self.0 >> 33) % (u64::from(most) + 1)) as u32
    }

    // The next number, as a length.
    pub(super) fn draw_len(&mut self, most: usize) -> usize
        ensures { result ≤ most }
    {
        self.draw(u32::try_from(most).unwrap_or(u32::MAX)) as usize
    }

    // Gives one of the bytes another value.
    pub(super) fn damage(&mut self, bytes: &mut [u8]) {
        let Some(last) = bytes.len().checked_sub(1) else {
            return;
        };
        let k = self.draw_len(last);
        bytes[k] ^= (1 + self.draw(254)) as u8;
    }

    // Gives all bytes any values.
    pub(super) fn scramble(&mut self, bytes: &mut [u8]) {
        for byte in bytes {
            *byte = self.draw(255) as u8;
        }
    }
}

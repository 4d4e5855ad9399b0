// What a step reads of the header block of an area that passed its test.
ghost use Rattle.std.specs.Prelude.{◌≡◌, true, false, ◌≤◌, ◌<◌, IfOk, IfErr};
ghost use Rattle.refusals.specs.declared.Refusal.TheVariants.{NoSuchStation};
ghost use Rattle.rules.specs.Setup.{header_of};
ghost use Rattle.area.specs.Layout.{config_at, test};
ghost use Rattle.step_parts.specs.Link.{is_linked};

use header::Header;
use refusals::Refusal;

#[derive(Clone, Copy)]
pub struct Config {
    pub header: Header,
    pub limits: [[u8; 8]; 8],
    ghost few: { header.n ≤ 8 },
}

impl Config {
    pub fn read(area: &[u8]) -> Config
        requires { test area.now ≡ true }
        ensures header { result.header ≡ header_of (config_at area.now) }
        ensures limits { result.limits ≡ (config_at area.now).limits }
    {
        let block = &area[0..area::STATIONS];
        Config {
            header: header::load(block),
            limits: header::load_limits(block),
        }
    }

    // The station of a number.
    pub fn station(self, station: u32) -> Result<usize, Refusal>
        ensures ok { IfOk result (λ i. (i ≡ station) × (station < self.header.n)) }
        ensures err { IfErr result (λ refusal. (refusal ≡ NoSuchStation) × (self.header.n ≤ station)) }
    {
        if u32::from(self.header.n) <= station {
            return Err(Refusal::NoSuchStation);
        }
        Ok(station as usize)
    }

    // A station and its neighbour.
    pub fn link(self, station: u32, peer: u32) -> Result<(usize, usize), Refusal>
        ensures ok { IfOk result (λ ends. (ends.0 ≡ station) × (ends.1 ≡ peer) × (is_linked self.header.n self.limits ends.0 ends.1 ≡ true)) }
        ensures err { IfErr result (λ refusal. (refusal ≡ NoSuchStation) × (is_linked self.header.n self.limits station peer ≡ false)) }
    {
        let i = self.station(station)?;
        if 8 <= peer {
            return Err(Refusal::NoSuchStation);
        }
        let j = peer as usize;
        if self.limits[i][j] == 0 {
            return Err(Refusal::NoSuchStation);
        }
        Ok((i, j))
    }
}

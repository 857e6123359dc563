// The script on standard input.
ghost use Rattle.std.specs.Prelude.{◌≡◌};
ghost use Rattle.ov_host.specs.Source.{silent_script};

use crate::count::Count;
use crate::reads::read_some;
use ov_host::{Failed, Source};

/// The source that gives the bytes of standard input. It tells none.
#[derive(Drop)]
pub struct StdinSource {
    rt: HostRuntime,
    faults: Count,
}

impl StdinSource {
    /// The source, with its count at 0. Nothing is read yet.
    pub fn new(rt: HostRuntime) -> StdinSource
        ensures { ⟦<StdinSource as Source>⟧.script result ≡ silent_script 0 }
    {
        StdinSource {
            rt,
            faults: Count::new(),
        }
    }
}

impl Source for StdinSource {
    ghost script = { λ s. silent_script s.faults };

    fn read(&mut self, buf: &mut [u8]) -> Result<usize, Failed> {
        self.faults.checked(read_some(&mut self.rt.stdin(), buf))
    }
}

#[cfg(test)]
mod tests {
    use super::*;

    #[test]
    fn an_empty_input_is_at_its_end(rt: HostRuntime) {
        let mut source = StdinSource::new(rt);
        assert_eq!(rt; source.read(&mut [0; 8]), Ok(0));
        assert_eq!(rt; source.read(&mut [0; 1]), Ok(0));
    }
}

//! Roads that can be closed and reopened, and a layer of closings over any roads.
#![tactic(auto)]

ghost use Rattle.std.specs.Prelude.{◌≡◌, true, false};
ghost use Rattle.roads.specs.Faults.{reported};
ghost use Rattle.closings.specs.Closures.{Closures, Coherent, tally, close_fault, reopen_fault, Moved, Reversible};

mod checks;
mod layer;
mod table;

pub use checks::check_road;
pub use layer::ClosingsLayer;
use roads::Roads;
use roads::fault::Fault;

/// Roads that can be closed and reopened.
pub trait Closable: Roads {
    // What closing means here.
    ghost closures: { Self → Closures };

    /// The most own closings there may be.
    fn capacity(&self) -> u32
        ensures { result ≡ (closures self.now).capacity };

    /// How many own closings there are.
    fn closed_count(&self) -> u32
        ensures { result ≡ tally (closures self.now).own (Self.Roads.meaning self.now).roads };

    /// Whether a road is open but for the own closings.
    fn is_under_open(&self, road: u32) -> bool
        ensures { result ≡ (closures self.now).under road };

    /// Whether a road is an own closing.
    fn is_own_closing(&self, road: u32) -> bool
        ensures { result ≡ (closures self.now).own road };

    fn close(&mut self, road: u32) -> Result<(), Fault>
        ensures told { reported result ≡ close_fault (Self.Roads.meaning self.old).roads (closures self.old) road }
        ensures moved { Moved true road result (Self.Roads.meaning self.old) (closures self.old) (Self.Roads.meaning self.new) (closures self.new) };

    fn reopen(&mut self, road: u32) -> Result<(), Fault>
        ensures told { reported result ≡ reopen_fault (Self.Roads.meaning self.old).roads (closures self.old) road }
        ensures moved { Moved false road result (Self.Roads.meaning self.old) (closures self.old) (Self.Roads.meaning self.new) (closures self.new) };

    ghost coherent: { (s : Self) → Coherent (Self.Roads.meaning s) (closures s) };
}

/// Closes a road and reopens it, which leaves every fact as it was.
pub fn close_and_reopen<R: Closable>(roads: &mut R, road: u32) -> Result<(), Fault>
    ensures told { reported result ≡ close_fault (R.Roads.meaning roads.old).roads (R.Closable.closures roads.old) road }
    ensures roads { R.Roads.meaning roads.new ≡ R.Roads.meaning roads.old }
    ensures closures { R.Closable.closures roads.new ≡ R.Closable.closures roads.old }
{
    close_reversibly(roads, road)?;
    roads.reopen(road)?;
    Ok(())
}

// Closes a road. Reopening it is then accepted, and leads back.
fn close_reversibly<R: Closable>(roads: &mut R, road: u32) -> Result<(), Fault>
    ensures told { reported result ≡ close_fault (R.Roads.meaning roads.old).roads (R.Closable.closures roads.old) road }
    ensures back { Reversible road result (R.Roads.meaning roads.old) (R.Closable.closures roads.old) (R.Roads.meaning roads.new) (R.Closable.closures roads.new) }
{
    roads.close(road)
}

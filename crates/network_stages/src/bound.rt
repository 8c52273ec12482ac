//! The silent bound of a network.

ghost use Rattle.std.specs.Prelude.{◌≡◌, ◌≤◌, ◌+◌, ◌<◌, List, length, max, map};
ghost use Rattle.dl_limits.specs.declared.TheConstants.{MOST_COMPONENTS};
ghost use Rattle.csp_program.specs.declared.processes.Proc.{Proc};
ghost use Rattle.csp_program.specs.declared.programs.Content.{Content};
ghost use Rattle.csp_tables.specs.Prelude.{Component, IsSilentBound};
ghost use Rattle.net_sound.specs.Heights.{sum_of_greatest};
ghost use Rattle.process_steps.specs.ComponentStep.{ProcessStep};
ghost use Rattle.network_stages.specs.Tables.{AreTablesOf};
ghost use Rattle.csp_base.specs.Lists.{greatest};

use crate::component_tables::ComponentTable;

// The larger of two numbers.
fn larger(a: u32, b: &u32) -> u32
    ensures { result ≡ max a b.now }
{
    let b = *b;
    if a < b { b } else { a }
}

// The greatest of the numbers, 0 where there is none.
fn greatest_of(numbers: &[u32]) -> u32
    ensures { result ≡ greatest numbers.now }
{
    let mut most = 0;
    for number in numbers {
        most = larger(most, number);
    }
    most
}

// The bound with that of one more component.
fn with_bound(bound: u32, table: &ComponentTable) -> u32
    requires { bound + greatest table.now.heights < 4294967296 }
    ensures { result ≡ bound + greatest table.now.heights }
{
    bound + greatest_of(table.heights.as_slice())
}

// The sum of the greatest heights.
fn sum(tables: &[ComponentTable]) -> u32
    requires { sum_of_greatest (map (λ t. t.heights) tables.now) < 4294967296 }
    ensures { result ≡ sum_of_greatest (map (λ t. t.heights) tables.now) }
{
    let mut bound = 0;
    for table in tables {
        bound = with_bound(bound, table);
    }
    bound
}

// The silent bound of the network whose components have these tables: the sum over the components of the greatest number of silent steps in a row.
pub(crate) fn silent_bound(tables: &[ComponentTable]) -> u32
    requires few { length tables.now ≤ MOST_COMPONENTS }
    requires are { (p : Content) × (cs : List (Component Proc)) × AreTablesOf p cs tables.now }
    ensures { (p : Content) (cs : List (Component Proc)) → AreTablesOf p cs tables.now
        → IsSilentBound (ProcessStep p) cs result }
{
    sum(tables)
}

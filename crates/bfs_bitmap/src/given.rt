// Runs that were given back.
ghost use Rattle.std.specs.Prelude.{◌≡◌, map, filter, not, IsTrue};
ghost use Rattle.bfs_bitmap.specs.Runs.{AreKeptFirst};
ghost use Rattle.bfs_bitmap.specs.Givens.{numbered, settled, is_left};

/// A run that was given back, with the number of its group once that is closed, and whether its call was kept.
#[derive(Clone, Copy)]
pub struct Given {
    pub first: u64,
    pub len: u64,
    pub group: Option<u64>,
    pub kept: bool,
}

/// The run with a group's number, if it has none.
fn with_number(given: Given, group: u64) -> Given
    ensures { result ≡ numbered group given }
{
    let number = match given.group {
        Some(number) => number,
        None => group,
    };
    Given {
        first: given.first,
        len: given.len,
        group: Some(number),
        kept: given.kept,
    }
}

/// The run of a call that was kept.
fn as_settled(given: Given) -> Given
    ensures { result ≡ settled given }
{
    Given {
        first: given.first,
        len: given.len,
        group: given.group,
        kept: true,
    }
}

/// Has the run's group left the log?
pub fn has_left(given: Given, group: u64) -> bool
    ensures { result ≡ is_left group given }
{
    match given.group {
        Some(number) => number <= group,
        None => false,
    }
}

/// Gives the group's number to the runs that have none.
pub fn number_all(given: &mut Vec<Given>, group: u64)
    ensures { given.new.items ≡ map (numbered group) given.old.items }
{
    for i in 0..given.len() {
        let run = given[i];
        given[i] = with_number(run, group);
    }
}

/// The runs' calls were kept. The runs of calls that were kept before stand first, and are passed over.
pub fn settle_all(given: &mut Vec<Given>)
    requires { AreKeptFirst given.old.items }
    ensures { given.new.items ≡ map settled given.old.items }
{
    let mut at = given.len();
    while at > 0 {
        let run = given[at - 1];
        if run.kept {
            return;
        }
        given[at - 1] = as_settled(run);
        at -= 1;
    }
}

/// Were the calls of all runs kept? The runs of such calls stand first, so the last one tells.
pub fn are_settled(given: &[Given]) -> bool
    requires { AreKeptFirst given.now }
    ensures { IsTrue result → filter (λ g. g.kept) given.now ≡ given.now }
{
    if given.is_empty() {
        return true;
    }
    let last = given[given.len() - 1];
    last.kept
}

/// Takes out the runs whose call was not kept.
pub fn drop_unsettled(given: &mut Vec<Given>)
    ensures { given.new.items ≡ filter (λ g. g.kept) given.old.items }
{
    given.retain(|run| run.kept);
}

/// Takes out the runs whose group has left the log.
pub fn drop_left(given: &mut Vec<Given>, group: u64)
    ensures { given.new.items ≡ filter (λ g. not (is_left group g)) given.old.items }
{
    given.retain(|run| !has_left(*run, group));
}

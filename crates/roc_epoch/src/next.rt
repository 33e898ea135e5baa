//! The grown workload that nodes are to go over to.
ghost use Rattle.std.specs.Prelude.{◌≡◌};
ghost use Rattle.std.specs.Option.{option_copied};
ghost use Rattle.roc_epoch.specs.Files.{own_plan, last_plan};

use roc_plan::Plan;

/// What nodes know of the file that comes next.
#[derive(Drop)]
pub struct Next {
    pub plan: Plan,
    /// The first 8 bytes of the SHA-256 of its text, as datagrams of nodes that run it carry it.
    pub tag: [u8; 8],
    /// How many coordinators there are, numbered from 0, from 1 to 16: each of them has to tell that it is drained before a server goes over. A coordinator reads nothing of it.
    pub coords: u16,
}

/// The plan of the file that a node runs, which has switched or not. Takes no memory.
pub fn own_plan<'a>(plan: &'a Plan, next: Option<&'a Next>, switched: bool) -> &'a Plan
    ensures { result.now ≡ own_plan plan.now (option_copied next.entry) switched }
{
    match next {
        Some(next) if switched => &next.plan,
        _ => plan,
    }
}

/// The plan of the last file that there is: each procedure and each cell of either file has the name there that it has in its own. Takes no memory.
pub fn last_plan<'a>(plan: &'a Plan, next: Option<&'a Next>) -> &'a Plan
    ensures { result.now ≡ last_plan plan.now (option_copied next.entry) }
{
    match next {
        Some(next) => &next.plan,
        None => plan,
    }
}

// Cases of the router list.
use crate::answers;
use header::fields;
use input::section;
use routers::RouterList;
use std::io;

// The list after a case: what changes it, or what it answers.
pub(crate) fn routers(
    rt: &impl Print,
    list: RouterList,
    kind: u8,
    c: &[u8],
) -> io::Result<RouterList> {
    let count = fields::word(c, 1) as usize;
    let x = fields::quad(c, 5);
    let d = fields::tail(c, 13);
    match kind {
        50 => Ok(RouterList::new(section::routers(d), count)),
        51 => Ok(list.replaced(section::routers(d), count, x)),
        52 => Ok(list.rescheduled(x, count as u64 * 4294967296 + fields::quad(c, 9) as u64)),
        53 => {
            answers::truth(rt, list.lists(x))?;
            Ok(list)
        }
        _ => {
            answers::number(rt, 8, list.next(x).map(u64::from))?;
            Ok(list)
        }
    }
}

//! What scripts don't show of the order of panels: its ends, and how many there can be.

use stack::{PanelId, Refusal, Stack, WinId};

fn new_panel(stack: &mut Stack, win: u16) -> Result<PanelId, Refusal> {
    stack.new_panel(WinId(win))
}

/// How many panels are visible, and the first and the last of them with their windows.
type Ends = (usize, Option<(PanelId, WinId)>, Option<(PanelId, WinId)>);

fn ends(stack: &Stack) -> Ends {
    let (mut upwards, mut downwards) = (stack.visible(), stack.visible_from_top());
    (stack.visible().count(), upwards.next(), downwards.next())
}

/// Makes panels of windows 1 to 1000.
fn fill(stack: &mut Stack) -> Result<(), Refusal> {
    for win in 1..=1000 {
        new_panel(stack, win)?;
    }
    Ok(())
}

#[test]
fn thousand_panels_are_the_most(rt: HostRuntime) {
    let mut stack = Stack::new(rt.alloc());
    assert!(rt; fill(&mut stack) == Ok(()));
    assert!(rt; new_panel(&mut stack, 1001) == Err(Refusal::TooMany));
    assert!(rt; new_panel(&mut stack, 1000) == Err(Refusal::InPanel));
    assert!(rt; stack.del(PanelId(500)) == Ok(()));
    let free = new_panel(&mut stack, 1001);
    assert!(rt; free == Ok(PanelId(500)) && stack.panel_of(WinId(1001)) == Some(PanelId(500)));
    let (bottom, top) = ((PanelId(1), WinId(1)), (PanelId(500), WinId(1001)));
    assert_eq!(rt; ends(&stack), (1000, Some(bottom), Some(top)));
}

/// Whether the panels are those that were made, of which it answers how many.
fn count_made(stack: &mut Stack) -> Option<usize> {
    let mut made = 0;
    for win in 1..=20 {
        match new_panel(stack, win) {
            Ok(_) => made = stack.visible().count(),
            Err(Refusal::NoMemory) => {}
            Err(_) => return None,
        }
        if stack.visible().count() != made {
            return None;
        }
    }
    Some(made)
}

/// Passes with each allocation refused too.
#[test]
fn refused_panel_leaves_the_others(rt: HostRuntime) {
    let mut stack = Stack::new(rt.alloc());
    assert!(rt; count_made(&mut stack) >= Some(19));
}

ghost use Rattle.std.specs.Prelude.{◌≡◌, ◌++◌, true, IfOk, OnOk};
ghost use Rattle.std.specs.Arc.{arc_value};
ghost use Rattle.ch_base.specs.declared.frame.Frame.TheVariants.{Watch};
ghost use Rattle.ch_history.specs.SignIns.{of_user};
ghost use Rattle.ch_history.specs.UserFrames.{tell_watchers};
ghost use Rattle.ch_ushard.specs.Effects.{HasOwners, told};

use crate::effects::Effects;
use ch_base::{Frame, Memory, Printed, Text};
use ch_print::Press;
use ch_watch::Watches;
use std::sync::Arc;

/// What tells the watchers of the user that it is online, where no socket is signed in as the user yet.
pub fn greeting(press: &mut Press, watches: &Watches, user: &Text) -> Result<Effects, Memory>
    requires { HasOwners watches.now }
    ensures { IfOk result (λ made. made ≡ tell_watchers true watches.now.signs watches.now.watches user.now) }
{
    let mut made = Effects::new(press.alloc());
    if watches.is_online(user) || watches.watchers(user) == 0 {
        return Ok(made);
    }
    let printed = change(press, user, true)?;
    tell(watches, user, &printed, None, &mut made)?;
    Ok(made)
}

/// The frame that tells that the user is online, or offline, which all that are told of it share.
pub fn change(press: &mut Press, user: &Text, online: bool) -> Result<Arc<Printed>, Memory>
    ensures { IfOk result (λ printed. arc_value printed ≡ Watch online user.now) }
{
    let user_id = user.copy(press.alloc())?;
    press.print(Frame::Watch { online, user_id })
}

/// Adds the frame for each watcher of the user but the excepted socket.
pub fn tell(
    watches: &Watches,
    user: &Text,
    printed: &Arc<Printed>,
    except: Option<u64>,
    made: &mut Effects,
) -> Result<(), Memory>
    requires { HasOwners watches.now }
    ensures { OnOk result (made.new ≡ made.old ++ told (arc_value printed.now) except (of_user watches.now.watches user.now)) }
{
    made.tell(watches.watching(user), printed, except)
}

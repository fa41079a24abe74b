//! What holds of every printed frame.
ghost use Rattle.ch_frames.specs.PrintedFrames.{PrintedTellsEvent};

/// A printed frame is a JSON text, where its body nests at most 63 levels: an object whose member
/// `event` is the name of the frame's event.
pub fn printed_tells_event()
    ensures { PrintedTellsEvent }
{}

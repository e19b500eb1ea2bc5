ghost use Rattle.mt_meet.specs.Meeting.{LosingMeet, MeetingIsNear};

/// No loss is missed: in each second in which two trajectories lose separation, their slices meet.
pub fn losing_meet_law()
    ensures { LosingMeet }
{}

/// What meets is near: in a second in which slices of two trajectories meet, their covers share a cell.
pub fn meeting_is_near_law()
    ensures { MeetingIsNear }
{}

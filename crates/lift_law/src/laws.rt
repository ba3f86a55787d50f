ghost use Rattle.guest_image.specs.declared.image.Image.{Image};
ghost use Rattle.lift_law.specs.Lifting.{RunsLifted};

/// A run without a vault, or a serve, in which no step meets a limit of pages is the same with the image
/// lifted: its list of steps is legal there, and the report is the same.
pub fn a_lifted_image_runs_the_same()
    ensures { (image : Image) → RunsLifted image }
{}

//! What a legal order of steps says of the items.
ghost use Rattle.std.specs.Prelude.{List};
ghost use Rattle.ch_intake.specs.Orders.{IsLegal};
ghost use Rattle.ch_intake.specs.OrderLaws.{ComeOutInOrder};
ghost use Rattle.ch_intake.specs.declared.step.Step.{Step};

/// What was pushed is what was popped, in the same order and each item once, and then the at most `PLACES` items that wait.
pub fn items_come_out_in_order<C>()
    ensures { (steps : List (Step C)) → IsLegal steps → ComeOutInOrder steps }
{}

//! The staging in course.
ghost use Rattle.std.specs.Prelude.{◌≡◌, IfOk, IfErr};
ghost use Rattle.stage_core.specs.Told.{IsAnswered};
ghost use Rattle.cycle_core.specs.UnderWay.{staging_op, with_asked, with_staging};

use crate::work::Work;
use entry_tree::Side;
use roots_api::{Answer, Op};
use std::marker::Model;

/// The staging in course, with what it asks next, in the work under way. Contracts see the work.
#[derive(Drop)]
pub struct Supply {
    // The side that needs the files.
    pub(crate) needs: Side,
    /// The side that is asked.
    pub side: Side,
    /// The operation that is asked.
    pub asked: Op,
    pub(crate) work: Work,
}

impl Model for Supply {
    ghost use Rattle.std.specs.Prelude.{◌≡◌, Some};
    ghost use Rattle.cycle_core.specs.Codes.{under_way_code};
    ghost use Rattle.cycle_core.specs.UnderWay.{IsNeeding};
    ghost use Rattle.cycle_core.specs.UnderWay.{UnderWay, stages_next};

    ghost Value = { UnderWay };

    ghost coded = { under_way_code };

    ghost view = { λ s. s.work };

    ghost invariant = { λ s. (stages_next s.work ≡ Some (s.side, s.asked)) × IsNeeding s.needs s.work };
}

impl Supply {
    /// The work once the request was made. It takes no memory.
    pub(crate) fn into_asked(self) -> Work
        ensures { result ≡ with_asked self }
    {
        let Supply {
            needs,
            mut work,
            ..
        } = self;
        match needs {
            Side::Alpha => work.alpha_asked = true,
            Side::Beta => work.beta_asked = true,
        }
        work
    }

    /// The work once the request is answered; or once it was made alone, where there is no memory to write the answer down.
    pub(crate) fn take(self, answer: Answer) -> Result<Work, Work>
        requires { IsAnswered (staging_op self) answer }
        ensures ok { IfOk result (λ work. work ≡ with_staging (with_asked self) answer) }
        ensures err { IfErr result (λ work. work ≡ with_asked self) }
    {
        let needs = self.needs;
        let mut work = self.into_asked();
        let taken = match needs {
            Side::Alpha => work.alpha.take(answer),
            Side::Beta => work.beta.take(answer),
        };
        match taken {
            Ok(()) => Ok(work),
            Err(_) => Err(work),
        }
    }
}

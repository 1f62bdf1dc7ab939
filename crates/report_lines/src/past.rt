//! A master's past, of which all copies can be told.
ghost use Rattle.std.specs.Prelude.{◌≡◌};
ghost use Rattle.report_lines.specs.Past.{IsPast, past_from};

use crate::tables::{Story, Tables};
use std::marker::Model;

/// What happened to a master, and who lived and held what before.
#[derive(Drop)]
pub struct Past {
    story: Story,
    opening: Tables,
}

impl Model for Past {
    ghost use Rattle.report_lines.specs.Past.{PastView};

    ghost Value = { PastView };

    ghost use Rattle.report_lines.specs.PastInside.{IsPastInside, past_inside};

    ghost view = { past_inside };

    ghost invariant = { IsPastInside };
}

impl Past {
    /// The past of this story, from these tables on.
    pub fn new(story: Story, opening: Tables) -> Past
        requires { IsPast (past_from story opening) }
        ensures { result ≡ past_from story opening }
    {
        Past { story, opening }
    }

    /// The story, and the tables from which it goes on.
    pub(crate) fn into_parts(self) -> (Story, Tables)
        ensures parts { past_from result.0 result.1 ≡ self }
        ensures past { IsPast self }
    {
        let Past { story, opening } = self;
        (story, opening)
    }
}

ghost use Rattle.std.specs.Prelude.{◌≡◌, ℕ, List};
ghost use Rattle.as_base.specs.declared.config.Config.{Config};
ghost use Rattle.as_outside.specs.declared.entry.Entry.{Entry};
ghost use Rattle.as_outside.specs.declared.report.Status.{Status};
ghost use Rattle.views.specs.Alike.{AreAlike};
ghost use Rattle.astream_top.specs.Ends.{IsEnded};
ghost use Rattle.astream_top.specs.Prompt.{Prompt};
ghost use Rattle.astream_top.specs.Worlds.{output, IsUnbroken, IsNotAmong, TakesAll, view_in_the_end, view_so_far, StandBeforePull};

/// Two runs in which query n of the one and query m of the other are alike make the same of their outputs, n and m, where
/// neither is broken, whatever other queries, slots, lines and configurations the two have: both outputs were begun equally
/// often, which is once or, where there is no such query, never, and they hold the same bytes.
pub fn alike_queries_have_equal_outputs()
    // Two runs that took all of their input, by all that `astream` says of the end of each.
    ensures ended { (c d : Config) (limit most : ℕ) (s t : Status) (count many : ℕ) (broken lost : List ℕ)
        (calls others : List Entry) (n m : ℕ) →
        IsEnded c limit s count broken calls → IsEnded d most t many lost others → TakesAll s → TakesAll t →
        IsNotAmong n broken → IsNotAmong m lost → AreAlike (view_in_the_end c calls) n (view_in_the_end d others) m →
        output n calls ≡ output m others }

    // At any pull of the one and any pull of the other, however the two end: by the lines pulled so far.
    ensures prompt { (c d : Config) (calls others before earlier : List Entry) (n m : ℕ) →
        Prompt c calls → Prompt d others → StandBeforePull before calls → StandBeforePull earlier others →
        IsUnbroken n before → IsUnbroken m earlier → AreAlike (view_so_far c before) n (view_so_far d earlier) m →
        output n before ≡ output m earlier }
{}

//! Laws of waiting.
ghost use Rattle.th_news.specs.News.{LawOfNews};
ghost use Rattle.th_news.specs.WatchNews.{LawOfWatchNews};

/// A receiver that waits is ready after another handle's call only where that call sent a value, or no sender is left.
pub fn only_news_ends_a_wait<T>()
    ensures { LawOfNews T }
{}

/// A reader that waits is ready after another handle's call only where that call published a version, or no sender is left.
pub fn only_a_version_ends_a_wait<T>()
    ensures { LawOfWatchNews T }
{}

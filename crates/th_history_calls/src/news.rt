//! Calls of th_news.
use th_news::laws;

pub fn law() {
    laws::only_news_ends_a_wait::<u64>();
    laws::only_a_version_ends_a_wait::<u64>();
}

//! Files of filters that aren't blocked.
use crate::filter::FilterFile;
use crate::head::Head;
use crate::layout::Layout;
use bloom_parts::hasher::DefaultHasher;
use bloom_plain::BloomFilter;

impl FilterFile for BloomFilter {
    ghost use Rattle.bloom_files.specs.declared.layout.Layout.TheVariants.{Whole};

    ghost layout = { Whole };

    ghost seen = { λ f. f };

    fn layout() -> Layout {
        Layout::Whole
    }

    fn head(&self) -> Head {
        let (k0, k1) = self.hasher().key();
        Head {
            num_hashes: self.num_hashes(),
            num_words: self.as_slice().len(),
            k0,
            k1,
        }
    }

    fn words(&self) -> &[u64] {
        self.as_slice()
    }

    fn from_head(head: Head, words: Vec<u64>) -> Self {
        let hasher = DefaultHasher::keyed(head.k0, head.k1);
        let Ok(builder) = BloomFilter::from_vec(words) else {
            unreachable!()
        };
        let filter = builder.hasher(hasher).hashes(head.num_hashes);
        let _words = filter.as_slice(); // they are of 64 bits
        filter
    }
}
